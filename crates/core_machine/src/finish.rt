//! An evaluation on one thread.
ghost use Rattle.std.specs.Prelude.{◌≡◌, IfOk, Some, length, vec_len, vec_capacity};
ghost use Rattle.core_machine.specs.Machine.{final};
ghost use Rattle.core_machine.specs.Core.{machine, out, IsResult};
ghost use Rattle.core_machine.specs.Runs.{AreFinal, IsStackFor};
ghost use Rattle.core_machine.specs.Slots.{all_offsets, found, offset};

use crate::faults::least_fault;
use crate::notes::notes_of;
use crate::run::evaluate_all;
use crate::sizes::{rooms_of, stack_room};
use crate::slots::{attributes_at, offsets_of};
use crate::whole::Whole;
use crate::{Finished, Job};
use lido_base::{Memory, Value};
use std::alloc::Global;
use string_librarian::Room;

/// A value for each instance, none of them evaluated.
fn empty_values(alloc: Global, job: &Job, begins: &[u32]) -> Result<Vec<Value>, Memory>
    requires { begins.now ≡ all_offsets job.now }
    ensures { IfOk result (λ values. length values.items ≡ offset job.now (length job.now.flat)) }
{
    let nodes = job.trees().flat.len() as usize;
    let count = begins[nodes] as usize;
    let values = vec![in alloc; Value::Void; count]?;
    Ok(values)
}

/// A stack with room for the arguments of each computation.
fn empty_stack(alloc: Global, job: &Job) -> Result<Vec<Value>, Memory>
    ensures empty { IfOk result (λ stack. vec_len stack ≡ 0) }
    ensures room { IfOk result (λ stack. IsStackFor job.now (vec_capacity stack)) }
{
    let room = stack_room(alloc, job)?;
    let stack = Vec::with_capacity(alloc, room)?;
    Ok(stack)
}

/// The values of all instances and the rooms.
fn evaluated(
    alloc: Global,
    whole: &Whole,
    begins: &[u32],
) -> Result<(Vec<Value>, Vec<Room>), Memory>
    requires { begins.now ≡ all_offsets whole.now }
    ensures { IfOk result (λ r. AreFinal whole.now r.0.items r.1.items) }
{
    whole.facts();
    let mut values = empty_values(alloc, whole.job(), begins)?;
    let mut rooms = rooms_of(alloc, whole)?;
    let mut stack = empty_stack(alloc, whole.job())?;
    evaluate_all(
        alloc,
        whole,
        begins,
        values.as_mut_slice(),
        rooms.as_mut_slice(),
        &mut stack,
    )?;
    Ok((values, rooms))
}

/// The value of `$out` at the root, the last of its attributes.
fn output_of(job: &Job, values: &[Value]) -> Value
    requires { length values.now ≡ offset job.now (length job.now.flat) }
    ensures { found job.now values.now (0, out job.now) ≡ Some result }
{
    job.facts();
    let count = attributes_at(job, 0).len();
    let place = count - 1;
    values[place]
}

/// The result of the values and rooms that a run left.
fn finish(
    alloc: Global,
    whole: &Whole,
    begins: &[u32],
    values: &[Value],
    rooms: Vec<Room>,
) -> Result<Finished, Memory>
    requires begins { begins.now ≡ all_offsets whole.now }
    requires last { AreFinal whole.now values.now rooms.items }
    ensures { IfOk result (λ f. IsResult whole.now (final (machine whole.now)) f.output f.bad f.notes.items f.rooms.items) }
{
    whole.facts();
    let job = whole.job();
    let output = output_of(job, values);
    let bad = least_fault(job, begins, values);
    let notes = notes_of(alloc, job, begins, values)?;
    Ok(Finished {
        output,
        bad,
        notes,
        rooms,
    })
}

/// The result of a job whose split is put aside.
fn result_of(alloc: Global, whole: &Whole) -> Result<Finished, Memory>
    ensures { IfOk result (λ f. IsResult whole.now (final (machine whole.now)) f.output f.bad f.notes.items f.rooms.items) }
{
    let begins = offsets_of(alloc, whole.job())?;
    let (values, rooms) = evaluated(alloc, whole, begins.as_slice())?;
    finish(alloc, whole, begins.as_slice(), values.as_slice(), rooms)
}

/// Evaluates a job on one thread, in the whole order. Gives the result, which is that of the machine's final state, and the job.
///
/// `Err` is want of memory.
pub fn run_one(alloc: Global, job: Job) -> Result<(Finished, Job), Memory>
    ensures finished { IfOk result (λ r. IsResult job (final (machine job)) r.0.output r.0.bad r.0.notes.items r.0.rooms.items) }
    ensures same { IfOk result (λ r. r.1 ≡ job) }
{
    let whole = Whole::new(alloc, job)?;
    let finished = result_of(alloc, &whole)?;
    Ok((finished, whole.back()))
}
