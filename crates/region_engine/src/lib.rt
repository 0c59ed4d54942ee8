//! The regions of a job, each of which goes along its own list of items.
#![tactic(auto)]

mod ending;
mod evaluation;
mod faults;
mod handing;
mod holders;
mod inputs;
mod marks;
mod notebook;
mod notes;
mod region;
mod sites;
mod sizes;
mod values;

pub use ending::finish;
pub use handing::deliver;
pub use region::Region;
