//! The computations in force by symbols and classes.
ghost use Rattle.std.specs.Prelude.{◌≡◌};
ghost use Rattle.symbol_inherit.specs.Standings.{IsFound};

use crate::classes::Classes;
use crate::index::Index;
use crate::left::first_left;
use computation_aims::Aim;

/// What a symbol and its classes have for an aim.
#[derive(Clone, Copy)]
pub enum Standing {
    /// Nothing computes it.
    Missing,
    /// The computation of this number, the symbol's own or that of the one class that is left.
    Computed(u32),
    /// The computations of two classes are left. These are the places of the first two.
    Clash { first: u32, second: u32 },
}

/// What symbol `x`, one of `count`, and its classes have for an aim.
pub fn of_symbol(classes: &Classes, index: &Index, count: u16, x: u16, aim: Aim) -> Standing
    ensures { IsFound classes.now index.now count x aim result }
{
    if let Some(own) = index.find(x as usize, aim) {
        return Standing::Computed(own.number);
    }
    let Some(left) = first_left(classes, index, count, x, aim, None) else {
        return Standing::Missing;
    };
    match first_left(classes, index, count, x, aim, Some(left.class)) {
        None => Standing::Computed(left.own.number),
        Some(other) => Standing::Clash {
            first: left.own.at,
            second: other.own.at,
        },
    }
}
