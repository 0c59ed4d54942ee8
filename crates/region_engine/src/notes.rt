//! The notes that regions tell in the end.
ghost use Rattle.std.specs.Prelude.{◌≡◌};
ghost use Rattle.core_machine.specs.Machine.{final};
ghost use Rattle.core_machine.specs.Core.{machine, AreNotes, IsMessage};
ghost use Rattle.region_engine.specs.Endings.{AreDone};
ghost use Rattle.region_engine.specs.Notebooks.{instance_of, note_of, told, IsNotebook};

use crate::holders::value_at;
use crate::notebook::{Message, Notebook};
use crate::region::Region;
use core_machine::{Job, Note};
use lido_base::Value;

/// The note of a message with this value, where that is a text that isn't empty.
fn note(message: Message, value: Value) -> Option<Note>
    ensures { result ≡ note_of message value }
{
    match value {
        Value::Text(text) if 0 < text.len => Some(Note {
            node: message.written,
            text,
        }),
        _ => None,
    }
}

/// The note that a message tells in the end.
fn note_at(job: &Job, regions: &[Region], message: Message) -> Option<Note>
    requires regions { AreDone job.now regions.now }
    requires message { IsMessage job.now (instance_of message) }
    ensures { result ≡ told job.now message }
{
    job.facts();
    note(message, value_at(job, regions, message.node, message.attr))
}

/// The notes of all messages. It takes no memory.
pub fn notes_of(job: &Job, regions: &[Region], notebook: Notebook) -> Vec<Note>
    requires regions { AreDone job.now regions.now }
    requires notebook { IsNotebook job.now notebook }
    ensures { AreNotes job.now (final (machine job.now)) result.items }
{
    let Notebook {
        messages,
        mut notes,
    } = notebook;
    for message in &messages {
        match note_at(job, regions, *message) {
            Some(note) => notes.push_reserved(note),
            None => {}
        }
    }
    notes
}
