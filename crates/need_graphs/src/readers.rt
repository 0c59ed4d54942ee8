//! The computations of a text that read a chain.
ghost use Rattle.std.specs.Prelude.{◌≡◌, ◌++◌, ◌↔◌, ℕ, IsTrue, Contains, flat_map, OnOk, IfOk};
ghost use Rattle.lido_syntax.specs.declared.spec.RuleItem.{RuleItem as Rule};
ghost use Rattle.lido_syntax.specs.declared.spec.SymbolItem.{SymbolItem as Item};
ghost use Rattle.need_graphs.specs.Users.{has, readers_of, text_readers, AreReaders, reads_by};

use crate::numbers::Numbers;
use crate::reads::reads_chain;
use lido_base::{Memory, StrId};
use lido_syntax::{Comp, RuleItem, Spec, SymbolItem};
use std::alloc::Global;

/// The computations of a text that read a chain, by their numbers.
#[derive(Drop)]
pub struct Readers {
    /// Where the chain doesn't start in their rule.
    pub any: Numbers,
    /// Where it does: what TAIL reads there comes from the start.
    pub own: Numbers,
}

/// Notes the numbers of a body's computations that read the chain, which starts in their rule or not.
fn note_body(
    alloc: Global,
    found: &mut Vec<u32>,
    chain: StrId,
    starts: bool,
    body: &[Comp],
) -> Result<(), Memory>
    ensures { OnOk result (found.new.items ≡ found.old.items ++ readers_of chain.0 starts body.now) }
{
    for comp in body {
        if reads_chain(alloc, comp, chain, starts)? {
            found.push(comp.number)?;
        }
    }
    Ok(())
}

/// Those of rules.
fn note_rules(
    alloc: Global,
    found: &mut Vec<u32>,
    chain: StrId,
    starts: bool,
    rules: &[RuleItem],
) -> Result<(), Memory>
    ensures { OnOk result (found.new.items ≡ found.old.items ++ flat_map (λ (r : Rule). readers_of chain.0 starts r.body) rules.now) }
{
    for rule in rules {
        note_body(alloc, found, chain, starts, rule.body.as_slice())?;
    }
    Ok(())
}

/// Those of symbols.
fn note_items(
    alloc: Global,
    found: &mut Vec<u32>,
    chain: StrId,
    starts: bool,
    items: &[SymbolItem],
) -> Result<(), Memory>
    ensures { OnOk result (found.new.items ≡ found.old.items ++ flat_map (λ (item : Item). readers_of chain.0 starts item.body) items.now) }
{
    for item in items {
        note_body(alloc, found, chain, starts, item.body.as_slice())?;
    }
    Ok(())
}

/// The set of the numbers of all that read the chain.
fn set_of_readers(alloc: Global, spec: &Spec, chain: StrId, starts: bool) -> Result<Numbers, Memory>
    ensures { IfOk result (λ set. (n : ℕ) → IsTrue (has set n) ↔ Contains (text_readers spec.now chain.0 starts) n) }
{
    let mut found = Vec::new(alloc);
    note_rules(alloc, &mut found, chain, starts, spec.rules.as_slice())?;
    note_items(alloc, &mut found, chain, starts, spec.symbols.as_slice())?;
    let set = Numbers::of(alloc, &found)?;
    Ok(set)
}

impl Readers {
    /// The computations of the text that read the chain. It takes time linear in the text.
    pub fn of(alloc: Global, spec: &Spec, chain: StrId) -> Result<Readers, Memory>
        ensures { IfOk result (AreReaders spec.now chain.0) }
    {
        Ok(Readers {
            any: set_of_readers(alloc, spec, chain, false)?,
            own: set_of_readers(alloc, spec, chain, true)?,
        })
    }

    /// Whether the computation of this number reads the chain, which starts in its plain rule or not.
    pub fn read(&self, starts: bool, number: u32) -> bool
        ensures { result ≡ reads_by self.now starts number }
    {
        if starts {
            self.own.has(number)
        } else {
            self.any.has(number)
        }
    }
}
