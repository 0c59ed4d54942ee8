//! Specifications that are read from texts, with what is in force in them, what the expansions add, and their faults. Nothing of the
//! product stands on this crate.
#![tactic(auto)]

#[cfg(test)]
mod additions;
#[cfg(test)]
mod faults;
mod read;
#[cfg(test)]
mod rows;
#[cfg(test)]
mod shown;
#[cfg(test)]
mod texts;
#[cfg(test)]
mod type_rows;
#[cfg(test)]
mod types;

pub use read::{check_text, forced_of};
