//! The CONSTITUENTS of a text, by their numbers.
ghost use Rattle.std.specs.Prelude.{◌≡◌, ◌++◌, ◌<◌, ◌^◌, nat_eq, flat_map, OnOk, IfOk};
ghost use Rattle.std.specs.List.Sorted.{IsStrictlyIncreasing};
ghost use Rattle.lido_syntax.specs.declared.spec.RuleItem.{RuleItem as Rule};
ghost use Rattle.lido_syntax.specs.declared.spec.SymbolItem.{SymbolItem as Item};
ghost use Rattle.lido_symbols.specs.Numbers.{place_in};
ghost use Rattle.flat_symbols.specs.Constituents.{numbers_in, numbers_of, AreNumbersOf};

use lido_base::{List, Memory};
use lido_symbols::leaves;
use lido_syntax::{Comp, Expr, RuleItem, Spec, SymbolItem};
use std::alloc::Global;

/// The numbers of the CONSTITUENTS of a text, in order, each once.
#[derive(Drop)]
pub struct Numbers {
    pub list: List<u32>,
}

/// Adds the number of the leaf, if it is a CONSTITUENTS.
fn push_leaf(numbers: &mut Vec<u32>, leaf: &Expr) -> Result<(), Memory>
    ensures { OnOk result (numbers.new.items ≡ numbers.old.items ++ numbers_in leaf.now) }
{
    match leaf {
        Expr::Constituents(constituents) => Ok(numbers.push(constituents.get().number)?),
        Expr::Int(..)
        | Expr::Str(..)
        | Expr::Bool(..)
        | Expr::Terminal(..)
        | Expr::Read(..)
        | Expr::Including(..)
        | Expr::Call(..) => Ok(()),
    }
}

/// Adds those of a computation.
fn push_comp(alloc: Global, numbers: &mut Vec<u32>, comp: &Comp) -> Result<(), Memory>
    ensures { OnOk result (numbers.new.items ≡ numbers.old.items ++ numbers_of comp.now) }
{
    let found = leaves(alloc, comp)?;
    for leaf in &found {
        push_leaf(numbers, leaf)?;
    }
    Ok(())
}

/// Adds those of a body.
fn push_body(alloc: Global, numbers: &mut Vec<u32>, body: &[Comp]) -> Result<(), Memory>
    ensures { OnOk result (numbers.new.items ≡ numbers.old.items ++ flat_map numbers_of body.now) }
{
    for comp in body {
        push_comp(alloc, numbers, comp)?;
    }
    Ok(())
}

/// Adds those of rules.
fn push_rules(alloc: Global, numbers: &mut Vec<u32>, rules: &[RuleItem]) -> Result<(), Memory>
    ensures { OnOk result (numbers.new.items ≡ numbers.old.items ++ flat_map (λ (r : Rule). flat_map numbers_of r.body) rules.now) }
{
    for rule in rules {
        push_body(alloc, numbers, rule.body.as_slice())?;
    }
    Ok(())
}

/// Adds those of symbols.
fn push_items(alloc: Global, numbers: &mut Vec<u32>, items: &[SymbolItem]) -> Result<(), Memory>
    ensures { OnOk result (numbers.new.items ≡ numbers.old.items ++ flat_map (λ (item : Item). flat_map numbers_of item.body) items.now) }
{
    for item in items {
        push_body(alloc, numbers, item.body.as_slice())?;
    }
    Ok(())
}

impl Numbers {
    /// Those of a text. It takes time linear in the text, but for the sort.
    pub fn of(alloc: Global, spec: &Spec) -> Result<Numbers, Memory>
        ensures { IfOk result (AreNumbersOf spec.now) }
    {
        let mut numbers = Vec::new(alloc);
        push_rules(alloc, &mut numbers, spec.rules.as_slice())?;
        push_items(alloc, &mut numbers, spec.symbols.as_slice())?;
        numbers.sort_unstable();
        numbers.dedup();
        Ok(Numbers {
            list: List::from_vec(numbers),
        })
    }

    /// The place of a number among them, from 0, and how many there are where it isn't among them.
    pub fn place(&self, number: u32) -> usize
        ensures place { IsStrictlyIncreasing self.now.list → result ≡ place_in (λ n. nat_eq n number) self.now.list }
        ensures within { result < 2 ^ 63 }
    {
        let numbers = self.list.as_slice();
        match numbers.binary_search(&number) {
            Ok(place) => place,
            Err(_) => numbers.len(),
        }
    }
}
