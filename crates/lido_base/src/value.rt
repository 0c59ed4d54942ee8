//! The values that attributes have.
use crate::StrId;

/// Why an operation has no result. The order is that of the kinds of one origin.
#[derive(Clone, Copy, Debug, PartialEq, Eq, PartialOrd, Ord)]
pub enum BadKind {
    /// The result needs more than 64 bits with its sign.
    Overflow,
    /// The divisor is 0.
    DivideByZero,
    /// The text would have more than 2^30 bytes.
    TextTooLong,
}

/// The types of attributes, terminals and expressions.
#[derive(Clone, Copy, Debug, PartialEq, Eq)]
pub enum ValueType {
    Int,
    Str,
    Bool,
    /// `PTGNode`: a text that patterns build.
    Text,
    Void,
}

/// A text that was built, by the room that keeps it, its place there and its length in bytes.
#[derive(Clone, Copy, Debug, PartialEq, Eq)]
pub struct Desc {
    pub room: u16,
    pub node: u32,
    pub len: u32,
}

/// The descriptor of the empty text, which stands in no room: texts in rooms have places from 1.
pub const EMPTY: Desc = Desc {
    room: 0,
    node: 0,
    len: 0,
};

/// Where an operation failed first: the written node whose computation asked for it, the number of the computation or of
/// the CONSTITUENTS, and why. Origins are ordered by node, then computation, then kind.
#[derive(Clone, Copy, Debug, PartialEq, Eq, PartialOrd, Ord)]
pub struct Origin {
    pub node: u32,
    pub comp: u16,
    pub kind: BadKind,
}

/// The value of an attribute or of an expression.
#[derive(Clone, Copy, Debug, PartialEq, Eq)]
pub enum Value {
    Int(i64),
    Bool(bool),
    Str(StrId),
    Text(Desc),
    Void,
    /// An operation failed there.
    Bad(Origin),
}
