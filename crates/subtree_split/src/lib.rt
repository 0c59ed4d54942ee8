//! Where a tree is split into regions.
#![tactic(auto)]

mod find;
mod nodes;
mod regions;
mod sizes;
mod symbols;

pub use find::{UnknownSplit, find_split};
pub use nodes::split;
