//! What every layer shares: ids, values, patterns as data, texts with ids, the outside as traits, whole texts in and out.
#![tactic(auto)]

mod boxed;
mod contents;
mod decimal;
mod ids;
mod kinds;
pub mod laws;
mod list;
mod mem_sink;
mod mem_source;
mod operation;
mod outside;
mod pattern;
mod strings;
mod value;
mod whole;

pub use boxed::Boxed;
pub use contents::Contents;
pub use decimal::Decimal;
pub use ids::{AttrId, NodeId, RuleId, StrId, SymId};
pub use kinds::{CoordPart, Kind, Many, WordKind};
pub use list::List;
pub use mem_sink::MemSink;
pub use mem_source::MemSource;
pub use operation::Op;
pub use outside::{Failed, Gate, Memory, OpenGate, Sink, Source};
pub use pattern::{Part, PartPiece, Pattern, Patterns, Piece};
pub use strings::Strings;
pub use value::{BadKind, Desc, EMPTY, Origin, Value, ValueType};
pub use whole::{ReadAllFault, WriteFault, read_all, write_all};
