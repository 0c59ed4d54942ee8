//! What the computations of a specification give values to: attributes and chains, seen from the symbol at which they stand.
#![tactic(auto)]

mod aims;
mod chains;

pub use aims::{Aim, Way, rule_aim, symbol_aim};
pub use chains::chain_names;
