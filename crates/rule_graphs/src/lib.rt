//! Graphs of plain rules: an edge leads from the left side of a rule to each symbol of its right side.
#![tactic(auto)]

mod children;

pub use children::rule_graph;
