//! The computations in force in the plain rules of a specification.
use crate::table::Tables;
use lido_base::{AttrId, List};

/// The tables of a specification with the computations in force.
#[derive(Debug, Drop)]
pub struct Forced {
    pub tables: Tables,
    /// For each plain rule what is in force in it: attributes by occurrence and number, then starts of chains, what is behind
    /// the left side in a chain, the output, and messages, each by number.
    pub comps: List<List<Force>>,
}

/// A computation in force in a plain rule.
#[derive(Clone, Copy, Debug, PartialEq, Eq)]
pub struct Force {
    /// The occurrence that it computes something of: 0 is the left side.
    pub occ: u16,
    pub goal: Goal,
    /// The occurrence whose node is its context: 0, or the child's for an `INH` computation of the child's symbol.
    pub context: u16,
    /// The computation's number.
    pub number: u32,
}

/// What a computation gives a value to. A chain is named by its place among those that are declared.
#[derive(Clone, Copy, Debug, PartialEq, Eq)]
pub enum Goal {
    /// An attribute of the occurrence's symbol.
    Attr(AttrId),
    /// The start of a chain.
    Start(u32),
    /// What is behind the left side in a chain.
    Behind(u32),
    /// The output.
    Out,
    /// The message of the rule's plain computation of that number, which are counted from 1.
    Message(u32),
}
