//! Patterns of PTG: how a text is read into them, and what their functions take.
#![tactic(auto)]

mod arguments;
mod fault;
mod function;
pub mod laws;
mod marks;
mod patterns;
mod reading;
mod syntax;
mod text;
mod written;

pub use fault::PtgFault;
pub use function::{arg_type, arity};
pub use text::read_patterns;
