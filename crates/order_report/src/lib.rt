//! How a call ends, and the line that says so.
#![tactic(auto)]

mod cycles;
pub mod laws;
mod lines;
mod names;
mod report;
mod status;
mod writing;

pub use cycles::write_cycle;
pub use lines::write_fault;
pub use names::{Names, RuleNames};
pub use report::write_order;
pub use status::{Status, Which};
