//! The sets of the INCLUDINGs of a text, by number, and at which symbols each is used.
#![tactic(auto)]

mod keys;
mod listings;
mod sets;
mod types;
mod uses;

pub use sets::{PairSet, sets_of};
