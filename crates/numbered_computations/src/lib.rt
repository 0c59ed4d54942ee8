//! The computations of a specification by their numbers, each with whose body it stands in.
#![tactic(auto)]

mod table;

pub use table::{Computations, Held, Holder};
