//! What a desk knows, the rule of the table, and what each step tells.
ghost use Rattle.std.specs.Prelude.{ℕ, List, []};
ghost use Rattle.lido_base.specs.declared.value.Value.{Value};
ghost use Rattle.boundary_table.specs.Rule.{Kept, looked, stored, drawn, learned, blank, opened, spent, joined};

use atomic_table::{Join, Play, Split, TableRule};
use lido_base::Value;
use std::collections::LinkedList;
use std::marker::{Brand, PhantomData};

/// What a desk knows. No value of it is made.
pub struct View {
    /// 0 before the table has its contents, 1 at a desk, 2 once it is spent.
    pub stage: u8,
    /// The values that the table has once all are stored, by key.
    pub contents: LinkedList<Value>,
    /// The region that stores each key.
    pub owners: LinkedList<u64>,
    /// The words that this desk has found or stored.
    pub known: LinkedList<u64>,
    /// The words that this desk has stored.
    pub mine: LinkedList<u64>,
    /// The numbers that this desk drew: the regions for which it stores.
    pub numbers: LinkedList<u64>,
    /// How many words it has loaded.
    pub loads: u64,
    /// The word that it loaded last.
    pub last: u64,
    /// What it found there.
    pub found: u64,
}

/// The rule of the table. Its key is the number of code words; the counter is the word behind them.
pub struct Owned;

impl TableRule<(), View, u64> for Owned {
    ghost holds = { Kept };

    ghost first = { λ _. blank };
}

/// Which contents a table is to have, and who stores them. Each call picks them.
pub trait Choice {
    ghost chosen: { List Value };

    ghost owners: { List ℕ };
}

impl Choice for Brand {
    ghost chosen = { [] };

    ghost owners = { [] };
}

/// The first desk with contents is cut from the seat that has none.
pub(crate) struct Open<J: Choice> {
    choice: PhantomData<J>,
}

impl<J: Choice> Split<View> for Open<J> {
    ghost left = { λ _. spent };

    ghost right = { λ _. opened J.chosen J.owners };
}

/// A new desk has a copy.
pub(crate) struct Copied;

impl Split<View> for Copied {
    ghost left = { λ v. v };

    ghost right = { λ v. v };
}

/// A word is loaded.
pub(crate) struct Look;

impl Play<(), View> for Look {
    ghost then = { looked };
}

/// A word is stored.
pub(crate) struct Leave;

impl Play<(), View> for Leave {
    ghost then = { stored };
}

/// A number is drawn.
pub(crate) struct Draw;

impl Play<(), View> for Draw {
    ghost then = { drawn };
}

/// Two desks become one.
pub(crate) struct Meet;

impl Join<View> for Meet {
    ghost both = { joined };

    ghost spent = { spent };
}

/// A load that changes no view.
pub(crate) struct Learn;

impl Play<(), View> for Learn {
    ghost then = { learned };
}
