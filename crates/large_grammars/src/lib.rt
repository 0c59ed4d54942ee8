//! Flat grammars of any size, as large as they can be. Nothing of the product stands on this crate.
#![tactic(auto)]

mod computations;
mod grammars;
mod size;

pub use grammars::grammar;
pub use size::{Flow, Size};
