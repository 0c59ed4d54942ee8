//! What chains add to the flat grammar.
#![tactic(auto)]

mod attrs;
mod children;
mod comps;
mod expand;
mod faults;
mod needs;
mod walk;
mod walks;

pub use expand::expand_chains;
