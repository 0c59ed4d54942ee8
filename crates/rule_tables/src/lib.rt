//! The numbers and tables of a specification, and its flat grammar, as definitions.
#![tactic(auto)]

mod assembly;
mod cell_names;
mod cell_rules;
mod cells;
mod direct_classes;
mod extra;
mod forced;
mod laws;
mod root;
mod rows;
mod rule_shapes;
mod symbol_kinds;
mod table;
mod written;

pub use assembly::{tables, tables_of};
pub use extra::{Extra, ExtraAttr, ExtraComp, Piece, Slot, SlotAt, Term};
pub use forced::{Force, Forced, Goal};
pub use laws::decided_needs;
pub use table::{SymbolClass, SymbolRow, Tables};
