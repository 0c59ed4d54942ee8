//! The visits of each symbol, or a cycle of a rule.
#![tactic(auto)]

mod classes;
mod cycle;
mod edges;
mod parts;
mod peeling;
mod rule_cycle;
mod search;
mod symbols;
mod vertices;

pub use parts::{PartFault, partition};
