//! Rooms in which built texts are kept as deposits, and the library that writes them. A text is a deposit: what makes it, of
//! which arguments, and how many bytes it has. No text is copied before it is written.
#![tactic(auto)]

pub mod laws;
mod library;
mod parts;
mod printing;
mod room;

pub use library::{Library, Stack};
pub use parts::{bytes_of, parts_of};
pub use room::Room;
