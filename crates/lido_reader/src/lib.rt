//! The reader of specifications: tokens to the syntax tree, or the place of the first token that fits none.
#![tactic(auto)]

mod bodies;
mod declarations;
mod items;
mod known_words;
pub mod laws;
mod right_sides;
mod rule_names;
mod rules;
mod specification;
mod symbols;

pub use known_words::intern_known_words;
pub use lido_computations::ReadSpecFault;
pub use specification::read_spec;
