//! The computation in force for an attribute or a chain at an occurrence of a rule.
ghost use Rattle.std.specs.Prelude.{◌≡◌};
ghost use Rattle.symbol_inherit.specs.Forces.{IsResolved};

use crate::index::Index;
use crate::standing::{Standing, of_symbol};
use crate::symbols::Symbols;
use computation_aims::Aim;

/// A computation in force.
#[derive(Clone, Copy)]
pub struct Held {
    /// The occurrence whose node is its context: 0 for the rule's own, else that of the symbol.
    pub context: u16,
    /// The computation's number.
    pub number: u32,
}

/// The computation in force for an aim of symbol `x` at occurrence `occ` of a rule, whose own computations
/// are `rule`: the rule's own, else the symbol's own, else that of the one class that is left.
pub fn resolve(rule: &Index, symbols: &Symbols, x: u16, occ: u16, aim: Aim) -> Option<Held>
    ensures { IsResolved rule.now symbols.now.classes symbols.now.index symbols.now.count x occ aim result }
{
    if let Some(own) = rule.find(occ as usize, aim) {
        return Some(Held {
            context: 0,
            number: own.number,
        });
    }
    match of_symbol(&symbols.classes, &symbols.index, symbols.count, x, aim) {
        Standing::Computed(number) => Some(Held {
            context: occ,
            number,
        }),
        Standing::Missing => None,
        Standing::Clash { .. } => None,
    }
}
