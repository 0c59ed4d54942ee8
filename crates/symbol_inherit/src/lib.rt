//! The computations in force in the plain rules of a specification: a rule's own, a symbol's own, and those that a symbol
//! inherits from its classes.
#![tactic(auto)]

mod clashes;
mod classes;
mod cycle;
mod entries;
mod forced;
mod index;
mod left;
mod missing;
mod notes;
mod numbers;
mod outcomes;
mod rule_entries;
mod rule_notes;
mod standing;
mod symbols;

pub use cycle::class_cycle;
pub use outcomes::in_force;
