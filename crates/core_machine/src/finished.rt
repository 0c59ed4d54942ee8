//! What a run gives.
use lido_base::{Desc, Origin, Value};
use string_librarian::Room;

/// The text of a message, which isn't empty, with the written node that it is of.
#[derive(Clone, Copy, Debug, PartialEq, Eq)]
pub struct Note {
    pub node: u32,
    pub text: Desc,
}

/// What an evaluation gives: the value of `$out` at the root, the least origin of a Bad value among the attributes that are marked
/// as written, the notes by written nodes, and the rooms of the texts.
#[derive(Drop)]
pub struct Finished {
    pub output: Value,
    pub bad: Option<Origin>,
    pub notes: Vec<Note>,
    pub rooms: Vec<Room>,
}
