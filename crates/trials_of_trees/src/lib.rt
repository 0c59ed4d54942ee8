//! Trials of trees: texts of trees are cut into their parts, and over a grammar of expressions read, flattened and split. Nothing stands
//! on this crate.
#![tactic(auto)]

pub mod coordinates;
pub mod expressions;
#[cfg(test)]
mod part_tests;
#[cfg(test)]
mod readings;
#[cfg(test)]
mod split_tests;
#[cfg(test)]
mod tree_tests;
