//! Small grammars that go through the whole analysis of orders, and plans for them, sound and faulty. Nothing of the product stands
//! on this crate.
#![tactic(auto)]

pub mod bare_leaf;
pub mod clashing_contexts;
pub mod crossed_uses;
pub mod late_inherited;
#[cfg(test)]
mod order_tests;
#[cfg(test)]
mod plan_tests;
pub mod two_visits;
