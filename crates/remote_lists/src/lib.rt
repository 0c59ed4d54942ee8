//! What remote lists list for symbols: the pairs of INCLUDINGs and CONSTITUENTS.
#![tactic(auto)]

mod listings;
mod paths;
mod reach;
mod sources;
mod symbols;

pub use listings::{listed, listed_rows};
pub use paths::path_names;
pub use reach::{is_set, reached};
pub use sources::{source, source_at, source_rows, with_source};
pub use symbols::{Symbols, is_cell, is_nonterminal};
