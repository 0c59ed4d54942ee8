//! The reader of computations, and of what they are made of: words, names, places, remote attributes and expressions.
#![tactic(auto)]

mod computations;
pub mod counts;
mod expressions;
mod fault;
pub mod messages;
pub mod names;
pub mod operators;
pub mod owners;
mod places;

pub use computations::computation;
pub use fault::ReadSpecFault;
pub use owners::computation_in;
