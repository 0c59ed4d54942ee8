//! The operations of expressions over the values that attributes have.
#![tactic(auto)]

mod compute;
pub mod laws;
mod lengths;
mod numbers;
mod operation;

pub use operation::{apply, first_bad};
