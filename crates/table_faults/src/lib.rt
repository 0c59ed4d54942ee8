//! The faults of the tables of a specification, and the first of them.
#![tactic(auto)]

mod checks;
mod doubles;
mod duplicates;
mod indices;
mod limits;
mod outputs;
mod roots;
mod unknown;

pub use checks::check;
pub use doubles::least_double;
pub use duplicates::least_duplicate;
pub use indices::least_bad_index;
pub use limits::too_many;
pub use outputs::least_bad_out;
pub use roots::root_count;
pub use unknown::least_unknown;
