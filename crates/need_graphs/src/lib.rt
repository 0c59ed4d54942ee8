//! The graphs along which symbols need INCLUDINGs, CONSTITUENTS and chains: from the left side of a plain rule to each symbol of
//! its right side; and which symbols need a chain.
#![tactic(auto)]

mod chains;
mod children;
mod contexts;
mod needs;
mod numbers;
mod paths;
mod readers;
mod reads;
mod users;

pub use chains::{chain_graph, started};
pub use children::child_graph;
pub use contexts::context_symbols;
pub use needs::chain_needs;
pub use paths::{chain_path, only};
pub use users::{chain_users, forces_at};
