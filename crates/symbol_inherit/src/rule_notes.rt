//! The computations of a rule's body with what they give values to.
ghost use Rattle.std.specs.Prelude.{◌≡◌, IfOk};
ghost use Rattle.computation_aims.specs.Aims.{AreChains};
ghost use Rattle.lido_symbols.specs.Occurrences.{IsProductionOf};
ghost use Rattle.lido_syntax.specs.declared.spec.RuleItem.{RuleItem as Rule};
ghost use Rattle.lido_syntax.specs.declared.spec.Spec.{Spec as Specification};
ghost use Rattle.symbol_inherit.specs.Notes.{rule_note, rule_notes as notes_of_rule};
ghost use Rattle.symbol_inherit.specs.Rules.{HasRule};

use crate::index::Index;
use crate::notes::{Note, Own};
use computation_aims::rule_aim;
use lido_base::Memory;
use lido_symbols::{Names, Production};
use lido_syntax::{Comp, RuleItem};
use std::alloc::Global;

/// A computation of a rule, if it gives a value to an attribute or a chain.
fn note_of(chains: &Names, production: &Production, comp: &Comp) -> Option<Note>
    ensures { (r : Rule) → IsProductionOf r production.now → result ≡ rule_note chains.now r comp.now }
{
    let (place, aim) = rule_aim(chains, production, &comp.target)?;
    let own = Own {
        number: comp.number,
        at: comp.at,
    };
    Some(Note { place, aim, own })
}

/// The computations of a rule that give values to attributes and chains, by occurrence.
pub fn rule_notes(alloc: Global, chains: &Names, rule: &RuleItem) -> Result<Vec<Note>, Memory>
    ensures { IfOk result (λ notes. notes.items ≡ notes_of_rule chains.now rule.now) }
{
    let production = Production::of(alloc, rule)?;
    let mut notes = Vec::new(alloc);
    for comp in rule.body.as_slice() {
        if let Some(note) = note_of(chains, &production, comp) {
            notes.push(note)?;
        }
    }
    Ok(notes)
}

/// The computations of a rule, by what they give values to.
pub fn rule_index(alloc: Global, chains: &Names, rule: &RuleItem) -> Result<Index, Memory>
    ensures { IfOk result (λ index. (spec : Specification) → AreChains spec chains.now → HasRule spec rule.now index) }
{
    let notes = rule_notes(alloc, chains, rule)?;
    let index = Index::of(alloc, &notes)?;
    Ok(index)
}
