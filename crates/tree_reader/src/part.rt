//! The parts of a bracketed tree's text.
use lido_base::List;

/// A line and a column, as they stand behind a name.
#[derive(Clone, Copy, Debug, PartialEq, Eq)]
pub struct Coordinates {
    pub line: u32,
    pub column: u32,
}

/// A part, with the place of its first byte.
#[derive(Debug, Drop)]
pub enum Part {
    /// A bracket that begins a node, the name of its rule, which has a place of its own, and the coordinates behind it, if there
    /// are some.
    Begin {
        at: u32,
        name_at: u32,
        name: List<u8>,
        coordinates: Option<Coordinates>,
    },
    /// A number.
    Int {
        at: u32,
        value: i64,
    },
    /// A string, as the bytes that it stands for.
    Str {
        at: u32,
        text: List<u8>,
    },
    /// The bracket that ends a node.
    End {
        at: u32,
    },
}
