//! What INCLUDINGs add to the flat grammar.
#![tactic(auto)]

mod expand;
mod extras;
mod faults;
mod needs;

pub use expand::expand_including;
