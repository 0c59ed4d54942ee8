//! The attributes of symbols: which symbols inherit which classes, which attributes are named on which symbols, and which ones a
//! symbol has, its own and those of its classes, with their kinds and types.
#![tactic(auto)]

mod facts;
mod inheritance;
mod laws;
mod named;
mod owned;
mod rows;
mod said;
mod written;

pub use inheritance::Inheritance;
pub use laws::symbols_of_items_are_numbered;
pub use named::{SymbolAttribute, named_attributes};
pub use owned::attributes_of;
pub use written::written_attributes;
