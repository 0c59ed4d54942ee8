//! The job text: its sections, the words of the command line, and the generator of large jobs.
#![tactic(auto)]

mod command_line;
mod cutting;
mod forms;
mod generator;
pub mod laws;

pub use command_line::{Command, RunWords, WordsFault, words};
pub use cutting::{CutFault, Sections, Span, cut};
pub use generator::big;
