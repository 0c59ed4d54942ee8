//! Copies of written expressions in the flat grammar.
#![tactic(auto)]

mod calls;
mod copies;
mod ops;

pub use calls::call;
pub use copies::{Leaves, copy};
pub use ops::Ops;
