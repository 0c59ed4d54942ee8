//! The symbols of the flat grammar.
#![tactic(auto)]

mod attributes;
mod constituents;
mod grammar;
mod laws;
mod limits;
mod messages;
mod names;
mod symbols;
mod types;

pub use grammar::flat_symbols;
pub use laws::shapes_and_root;
pub use messages::{MessageTexts, message_texts};
