//! Patterns as they are written.
use lido_base::{List, StrId, ValueType};

/// An insertion point: the first byte of its `$`, its number if it has one, and the type that it gives its argument.
#[derive(Clone, Copy)]
pub struct Point {
    pub at: u32,
    pub number: Option<u32>,
    pub kind: ValueType,
}

/// What an item is: a string, or an insertion point.
#[derive(Clone, Copy)]
pub enum Content {
    Text(StrId),
    Point(Point),
}

/// An item of a pattern, and whether it stands in braces.
#[derive(Clone, Copy)]
pub struct Item {
    pub content: Content,
    pub brace: bool,
}

/// A pattern: the first byte of its name, the name, and its items.
#[derive(Drop)]
pub struct Written {
    pub at: u32,
    pub name: StrId,
    pub items: List<Item>,
}
