//! The notes of a run.
ghost use Rattle.std.specs.Prelude.{◌≡◌, ◌<◌, ◌+◌, map, IfOk, OnOk, List, length};
ghost use Rattle.core_machine.specs.declared.notes.Entry.{Entry as Message};
ghost use Rattle.core_machine.specs.Notes.{message_of, note_of, AreAllEntries, AreEntries};
ghost use Rattle.core_machine.specs.Slots.{all_offsets, offset};

use crate::Job;
use crate::finished::Note;
use crate::slots::attributes_at;
use flat_grammar::FlatAttr;
use lido_base::{Desc, Memory, Value};
use std::alloc::Global;

/// A message with a text that isn't empty: its instance with the written node, and the text.
#[derive(Clone, Copy)]
struct Entry {
    written: u32,
    node: u32,
    attr: u16,
    text: Desc,
}

/// The text of a message, where it isn't empty.
fn message_at(attr: FlatAttr, value: Value) -> Option<Desc>
    ensures { result ≡ message_of attr value }
{
    match value {
        Value::Text(text) if attr.message && 0 < text.len => Some(text),
        _ => None,
    }
}

/// Adds the messages of a node.
fn push_messages(
    job: &Job,
    begins: &[u32],
    values: &[Value],
    node: u32,
    entries: &mut Vec<Entry>,
) -> Result<(), Memory>
    requires inside { node < length job.now.flat }
    requires begins { begins.now ≡ all_offsets job.now }
    requires many { length values.now ≡ offset job.now (length job.now.flat) }
    requires before { AreEntries job.now values.now node 0 entries.old.items }
    ensures { OnOk result (AreEntries job.now values.now (node + 1) 0 entries.new.items) }
{
    job.facts();
    let begin = begins[node as usize] as usize;
    let written = job.trees().node_of.as_slice()[node as usize];
    for (k, attr) in attributes_at(job, node).iter().enumerate() {
        match message_at(*attr, values[begin + k]) {
            Some(text) => entries.push(Entry {
                written,
                node,
                attr: k as u16,
                text,
            })?,
            None => {}
        }
    }
    Ok(())
}

/// The messages of all nodes, in the order of nodes and attributes.
fn messages(
    alloc: Global,
    job: &Job,
    begins: &[u32],
    values: &[Value],
) -> Result<Vec<Entry>, Memory>
    requires begins { begins.now ≡ all_offsets job.now }
    requires many { length values.now ≡ offset job.now (length job.now.flat) }
    ensures { IfOk result (λ entries. AreEntries job.now values.now (length job.now.flat) 0 entries.items) }
{
    let mut entries = Vec::new(alloc);
    for node in 0..job.trees().flat.len() {
        push_messages(job, begins, values, node, &mut entries)?;
    }
    Ok(entries)
}

/// Puts the messages in the order of notes: by written nodes, then as they are.
fn by_written(job: &Job, values: &[Value], mut entries: Vec<Entry>) -> Result<Vec<Entry>, Memory>
    requires { AreEntries job.now values.now (length job.now.flat) 0 entries.items }
    ensures { IfOk result (λ list. AreAllEntries job.now values.now list.items) }
{
    job.facts();
    let _ = values;
    entries.sort_by_key(|entry| entry.written)?;
    Ok(entries)
}

/// The notes: the messages with texts that aren't empty.
pub fn notes_of(
    alloc: Global,
    job: &Job,
    begins: &[u32],
    values: &[Value],
) -> Result<Vec<Note>, Memory>
    requires begins { begins.now ≡ all_offsets job.now }
    requires many { length values.now ≡ offset job.now (length job.now.flat) }
    ensures { IfOk result (λ notes. (entries : List Message) × AreAllEntries job.now values.now entries × (notes.items ≡ map note_of entries)) }
{
    let entries = by_written(job, values, messages(alloc, job, begins, values)?)?;
    let mut notes = Vec::with_capacity(alloc, entries.len())?;
    for entry in &entries {
        notes.push_reserved(Note {
            node: entry.written,
            text: entry.text,
        });
    }
    Ok(notes)
}
