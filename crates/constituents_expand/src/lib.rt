//! What CONSTITUENTS add to the flat grammar.
#![tactic(auto)]

mod expand;
mod extras;
mod faults;
mod gatherings;
mod listings;
mod reach;
mod symbols;
mod uses;
mod weights;

pub use expand::expand_constituents;
