//! Types of the computations in force of a specification.
#![tactic(auto)]

mod checker;
mod entries;
mod forced;
mod written;

pub use checker::Checker;
pub use forced::check_forced;
