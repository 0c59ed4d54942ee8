//! The analysis of grammars as large as they can be, in bounded time. Nothing stands on this crate.
#![tactic(auto)]

#[cfg(test)]
mod size_tests;
#[cfg(test)]
mod visit_tests;
