//! Graphs of numbers: from which vertices a source can be reached, and the first of the shortest paths and cycles.
//!
//! The vertices of a graph are counted from 0, and for each the vertices are listed to which an edge leads from it. A set of
//! vertices tells for each vertex whether it is in the set.
#![tactic(auto)]

mod cycle;
mod distances;
mod edges;
mod kept;
mod laws;
mod path;

pub use cycle::least_cycle;
pub use distances::reaching;
pub use edges::{bare, turned};
pub use kept::without;
pub use laws::agreeing_tests_have_one_graph;
pub use path::least_path;
