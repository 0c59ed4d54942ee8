//! The induced dependencies of a flat grammar (Kastens 1980).
#![tactic(auto)]

mod closure;
mod direct;
mod due;
mod graph;
mod growth;
mod rounds;
mod row;
mod shifts;

pub use growth::induce;
