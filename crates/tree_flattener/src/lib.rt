//! The flat tree of a written tree: under each list node stands a chain of cells.
#![tactic(auto)]

mod counts;
mod draft;
mod flatten_tree;
mod forms;
pub mod laws;
mod terminals;
mod walk;

pub use counts::cells_by_rule;
pub use flatten_tree::flatten;
