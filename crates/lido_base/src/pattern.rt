//! Patterns, by which texts are built (Eli's pattern-based text generator, PTG).
use crate::{List, StrId, ValueType};

/// The patterns of a job, in the order of its text.
#[derive(Debug, Drop)]
pub struct Patterns {
    pub list: List<Pattern>,
}

/// A pattern `Name: parts`, whose function is `PTGName`: the types of its arguments, and what it prints.
#[derive(Debug, Drop)]
pub struct Pattern {
    pub name: StrId,
    pub args: List<ValueType>,
    pub parts: List<Part>,
}

/// A piece of a pattern. One in braces is printed only where every inserted text of the pattern has a byte at least.
#[derive(Clone, Copy, Debug, PartialEq, Eq)]
pub struct Part {
    pub piece: PartPiece,
    pub brace: bool,
}

/// What a part prints: a text of the pattern's own, or an argument, counted from 1.
#[derive(Clone, Copy, Debug, PartialEq, Eq)]
pub enum PartPiece {
    Fixed(StrId),
    Arg(u32),
}

/// What a built text is made by: a number, a string, two texts in a row, or a pattern by its place in `Patterns`.
#[derive(Clone, Copy, Debug, PartialEq, Eq)]
pub enum Piece {
    Numb,
    AsIs,
    Seq,
    Pattern(u32),
}
