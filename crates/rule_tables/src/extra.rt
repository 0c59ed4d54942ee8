//! What an expansion adds to the flat grammar.
use lido_base::{AttrId, Kind, List, RuleId, SymId, ValueType};

/// The attributes that an expansion adds, and their computations.
#[derive(Debug, Drop)]
pub struct Extra {
    /// By symbol, then by slot.
    pub attrs: List<ExtraAttr>,
    /// By plain rule, occurrence and slot.
    pub comps: List<ExtraComp>,
}

/// An added attribute.
#[derive(Clone, Copy, Debug, PartialEq, Eq)]
pub struct ExtraAttr {
    pub sym: SymId,
    pub slot: Slot,
    pub kind: Kind,
    pub ty: ValueType,
}

/// The computation of an added attribute in a plain rule.
#[derive(Debug, Drop)]
pub struct ExtraComp {
    pub rule: RuleId,
    pub occ: u16,
    pub slot: Slot,
    pub value: Term,
}

/// What an attribute of the flat grammar is.
#[derive(Clone, Copy, Debug, PartialEq, Eq)]
pub enum Slot {
    /// A written one, by its number in its symbol's row.
    Written(AttrId),
    /// INCLUDING of a set of pairs, which are counted from 0.
    Inc(u32),
    /// A CONSTITUENTS, by its number in the text.
    Con(u32),
    /// What a chain has in front of a node. Chains are named by their places among those that are declared.
    Front(u32),
    /// What a chain has behind a node.
    Behind(u32),
}

/// An attribute of an occurrence of a plain rule.
#[derive(Clone, Copy, Debug, PartialEq, Eq)]
pub struct SlotAt {
    /// 0 is the left side.
    pub occ: u16,
    pub slot: Slot,
}

/// What an added attribute is given.
#[derive(Debug, Drop)]
pub enum Term {
    Read(SlotAt),
    /// The expression of the written computation of this number, at the left side.
    Copied(u32),
    /// No value, and it depends on these.
    Void(List<SlotAt>),
    /// These, joined from the right by the WITH of the CONSTITUENTS of this number. There is at least one.
    Joined(u32, List<Piece>),
}

/// What a CONSTITUENTS joins.
#[derive(Clone, Copy, Debug, PartialEq, Eq)]
pub enum Piece {
    Read(SlotAt),
    /// What its WITH makes of a source's attribute.
    Single(SlotAt),
    /// What its WITH has where there is no source.
    Null,
}
