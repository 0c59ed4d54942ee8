//! Trees as tables of nodes: how they are built, and how they are read in constant time.
#![tactic(auto)]

mod fault;
pub mod laws;
mod tree;
mod trees;

pub use fault::TreeFault;
pub use tree::Tree;
pub use trees::{Split, Trees};
