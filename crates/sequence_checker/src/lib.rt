//! The check of plans: whether the visits and the visit sequences of a plan are sound. It stands on the grammar alone.
#![tactic(auto)]

mod fault;
mod goals;
mod items;
mod progress;
mod reads;
mod rows;
mod sequence;
mod set;
mod verdict;
mod visits;

pub use fault::CheckFault;
pub use verdict::check;
