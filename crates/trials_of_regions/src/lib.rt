//! The regions of a job that has two, opened, run in turn and finished. Nothing of the product stands on them.
#![tactic(auto)]

mod turns;

pub use turns::{finished, last_turns, opened, turn, turns_by};
