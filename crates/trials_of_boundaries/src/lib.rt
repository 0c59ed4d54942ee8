//! Tests of the table between regions by public calls alone: that values are found, that numbers are drawn in order, that threads
//! see nothing but the contents. Nothing of the product stands on them.
#![tactic(auto)]

mod rows;
mod single;
#[cfg(test)]
mod tests;

pub use rows::{Rows, Worker};
pub use single::Single;
