//! The messages of a job, in the order of notes.
ghost use Rattle.std.specs.Prelude.{◌≡◌, ◌<◌, ◌+◌, IfOk, OnOk, length};
ghost use Rattle.region_engine.specs.Notebooks.{AreMessages, AreMessagesBefore, HasNotebook, IsNotebook};

use crate::sizes::attributes_at;
use core_machine::{Job, Note};
use lido_base::Memory;
use std::alloc::Global;

/// An instance whose attribute is marked as a message, with the written node that it is of.
#[derive(Clone, Copy)]
pub struct Message {
    pub written: u32,
    pub node: u32,
    pub attr: u16,
}

/// What the region of the root keeps for the end: the messages of the job in the order of notes, and space for a note of each.
#[derive(Drop)]
pub struct Notebook {
    pub messages: Vec<Message>,
    pub notes: Vec<Note>,
}

/// Adds the messages of a node.
fn push_messages(job: &Job, node: u32, list: &mut Vec<Message>) -> Result<(), Memory>
    requires inside { node < length job.now.flat }
    requires before { AreMessagesBefore job.now node 0 list.old.items }
    ensures { OnOk result (AreMessagesBefore job.now (node + 1) 0 list.new.items) }
{
    job.facts();
    let written = job.trees().node_of.as_slice()[node as usize];
    for (k, attr) in attributes_at(job, node).iter().enumerate() {
        if attr.message {
            list.push(Message {
                written,
                node,
                attr: k as u16,
            })?;
        }
    }
    Ok(())
}

/// The messages of all nodes, in the order of nodes and attributes.
fn messages_of(alloc: Global, job: &Job) -> Result<Vec<Message>, Memory>
    ensures { IfOk result (λ list. AreMessagesBefore job.now (length job.now.flat) 0 list.items) }
{
    let mut list = Vec::new(alloc);
    for node in 0..job.trees().flat.len() {
        push_messages(job, node, &mut list)?;
    }
    Ok(list)
}

/// Puts the messages in the order of notes: by written nodes, then as they are.
fn by_written(job: &Job, mut list: Vec<Message>) -> Result<Vec<Message>, Memory>
    requires { AreMessagesBefore job.now (length job.now.flat) 0 list.items }
    ensures { IfOk result (λ list. AreMessages job.now list.items) }
{
    job.facts();
    list.sort_by_key(|message| message.written)?;
    Ok(list)
}

impl Notebook {
    /// The messages of a job, and space for a note of each.
    fn new(alloc: Global, job: &Job) -> Result<Notebook, Memory>
        ensures { IfOk result (IsNotebook job.now) }
    {
        let messages = by_written(job, messages_of(alloc, job)?)?;
        let notes = Vec::with_capacity(alloc, messages.len())?;
        Ok(Notebook { messages, notes })
    }
}

/// The notebook of a region: that of the root has one.
pub fn notebook_of(alloc: Global, job: &Job, number: u32) -> Result<Option<Notebook>, Memory>
    ensures { IfOk result (HasNotebook job.now number) }
{
    if number > 0 {
        return Ok(None);
    }
    let notebook = Notebook::new(alloc, job)?;
    Ok(Some(notebook))
}
