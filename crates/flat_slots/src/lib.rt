//! The attributes of the symbols of the flat grammar, by number.
#![tactic(auto)]

mod counts;
mod entries;
mod row;
mod slot;
mod table;

pub use row::SlotRow;
pub use slot::Slot;
pub use table::{SlotTable, slot_table};
