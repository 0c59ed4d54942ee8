//! A table in which threads leave values by key, without locks. Each key's value is stored once, by the region that owns the key,
//! and whoever finds it finds the value of the contents.
#![tactic(auto)]

mod codes;
mod desk;
mod make;
mod plays;
mod table;

pub use desk::{Boundary, Desk};
pub use table::{NotYet, Taken};
