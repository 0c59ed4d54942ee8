//! The visit sequences of a flat grammar whose extended dependencies have no cycle.
#![tactic(auto)]

mod bits;
mod choice;
mod given;
mod goals;
pub mod laws;
mod listed;
mod plan;
mod progress;
mod queue;
mod rest;
mod rows;

pub use plan::sequences;
