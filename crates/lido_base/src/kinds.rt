//! Kinds of attributes, of coordinates, of limits and of faulty command words.

/// Which side of a rule computes an attribute: the rules of its symbol, or those that its symbol stands in.
#[derive(Clone, Copy, Debug, PartialEq, Eq)]
pub enum Kind {
    Synthesized,
    Inherited,
}

/// Which coordinate of a node: its line or its column.
#[derive(Clone, Copy, Debug, PartialEq, Eq)]
pub enum CoordPart {
    Line,
    Col,
}

/// What there is too much of.
#[derive(Clone, Copy, Debug, PartialEq, Eq)]
pub enum Many {
    Symbols,
    Rules,
    Elements,
    Computations,
    Attributes,
    Occurrences,
    Nodes,
    Instances,
    TextCells,
}

/// What is wrong with a word of the command line: it isn't there, it has no form that is allowed at its place, it stood
/// before and may stand once, or its number is outside its range.
#[derive(Clone, Copy, Debug, PartialEq, Eq)]
pub enum WordKind {
    Missing,
    Unknown,
    Repeated,
    Range,
}
