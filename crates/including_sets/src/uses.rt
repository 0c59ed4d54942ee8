//! The INCLUDINGs of a text.
ghost use Rattle.std.specs.Prelude.{◌≡◌, ◌++◌, ◌∷◌, [], map, flat_map, option_to_list, OnOk, IfOk};
ghost use Rattle.lido_syntax.specs.Parts.{conditions};
ghost use Rattle.lido_syntax.specs.declared.spec.RuleItem.{RuleItem as Rule};
ghost use Rattle.lido_syntax.specs.declared.spec.SymbolItem.{SymbolItem as Item};
ghost use Rattle.including_sets.specs.Uses.{told, uses_of, uses_in, AreUses};

use lido_base::{List, Memory};
use lido_syntax::{Comp, Expr, Pair, RuleItem, Spec, SymbolItem, Target};
use std::alloc::Global;

/// An INCLUDING of the text.
#[derive(Clone, Copy)]
pub struct Use<'a> {
    /// The number of the computation in which it stands.
    pub comp: u32,
    /// Its place.
    pub at: u32,
    pub pairs: &'a List<Pair>,
}

/// Adds the INCLUDINGs in an expression, from the left.
fn push_uses<'a>(found: &mut Vec<Use<'a>>, comp: u32, value: &'a Expr) -> Result<(), Memory>
    ensures { OnOk result (map told found.new.items ≡ map told found.old.items ++ uses_in comp value.now) }
{
    match value {
        Expr::Call(_, args) => {
            for arg in args.as_slice() {
                push_uses(found, comp, arg)?;
            }
        }
        Expr::Including(at, pairs) => found.push(Use {
            comp,
            at: *at,
            pairs,
        })?,
        Expr::Int(..)
        | Expr::Str(..)
        | Expr::Bool(..)
        | Expr::Terminal(..)
        | Expr::Read(..)
        | Expr::Constituents(..) => {}
    }
    Ok(())
}

/// The condition of a message, if it has one.
fn condition(target: &Target) -> Option<&Expr>
    ensures { map (λ e. e.now) (option_to_list result) ≡ conditions target.now }
{
    match target {
        Target::Message(_, Some(value)) => Some(value.get()),
        _ => None,
    }
}

/// Adds those of a computation's condition and of its value.
fn push_valued<'a>(found: &mut Vec<Use<'a>>, comp: &'a Comp) -> Result<(), Memory>
    ensures { OnOk result (map told found.new.items ≡ map told found.old.items
        ++ flat_map (uses_in comp.now.number) (conditions comp.now.target ++ comp.now.value ∷ [])) }
{
    if let Some(value) = condition(&comp.target) {
        push_uses(found, comp.number, value)?;
    }
    push_uses(found, comp.number, &comp.value)
}

/// Adds those of a computation.
fn push_comp<'a>(found: &mut Vec<Use<'a>>, comp: &'a Comp) -> Result<(), Memory>
    ensures { OnOk result (map told found.new.items ≡ map told found.old.items ++ uses_of comp.now) }
{
    push_valued(found, comp)?;
    for value in comp.after.as_slice() {
        push_uses(found, comp.number, value)?;
    }
    Ok(())
}

/// Adds those of a body.
fn push_body<'a>(found: &mut Vec<Use<'a>>, body: &'a [Comp]) -> Result<(), Memory>
    ensures { OnOk result (map told found.new.items ≡ map told found.old.items ++ flat_map uses_of body.now) }
{
    for comp in body {
        push_comp(found, comp)?;
    }
    Ok(())
}

/// Adds those of rules.
fn push_rules<'a>(found: &mut Vec<Use<'a>>, rules: &'a [RuleItem]) -> Result<(), Memory>
    ensures { OnOk result (map told found.new.items ≡ map told found.old.items ++ flat_map (λ (r : Rule). flat_map uses_of r.body) rules.now) }
{
    for rule in rules {
        push_body(found, rule.body.as_slice())?;
    }
    Ok(())
}

/// Adds those of symbols.
fn push_items<'a>(found: &mut Vec<Use<'a>>, items: &'a [SymbolItem]) -> Result<(), Memory>
    ensures { OnOk result (map told found.new.items ≡ map told found.old.items ++ flat_map (λ (item : Item). flat_map uses_of item.body) items.now) }
{
    for item in items {
        push_body(found, item.body.as_slice())?;
    }
    Ok(())
}

/// The INCLUDINGs of a text, by their places. It takes time linear in the text, but for the sort.
pub fn sorted_uses(alloc: Global, spec: &Spec) -> Result<Vec<Use>, Memory>
    ensures { IfOk result (λ uses. AreUses spec.now (map told uses.items)) }
{
    let mut found = Vec::new(alloc);
    push_rules(&mut found, spec.rules.as_slice())?;
    push_items(&mut found, spec.symbols.as_slice())?;
    found.sort_by_key(|one| one.at)?;
    Ok(found)
}
