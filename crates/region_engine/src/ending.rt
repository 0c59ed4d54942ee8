//! The result of a job whose regions have nothing left.
ghost use Rattle.std.specs.Prelude.{◌≡◌, ◌≤◌, [], Some, map, length, vec_capacity};
ghost use Rattle.core_machine.specs.Machine.{final};
ghost use Rattle.core_machine.specs.Core.{machine, out, IsResult};
ghost use Rattle.region_engine.specs.declared.region.Region.{Region as Finisher};
ghost use Rattle.region_engine.specs.Endings.{AreAllRegions, AreDone, HaveNothingLeft};

use crate::faults::least_fault;
use crate::holders::value_at;
use crate::notes::notes_of;
use crate::region::Region;
use crate::sizes::attributes_at;
use core_machine::{Finished, Job};
use lido_base::Value;
use string_librarian::Room;

/// The value of `$out` at the root, the last of its attributes.
fn output_of(job: &Job, regions: &[Region]) -> Value
    requires { AreDone job.now regions.now }
    ensures { (final (machine job.now)).values (0, out job.now) ≡ Some result }
{
    job.facts();
    let count = attributes_at(job, 0).len();
    value_at(job, regions, 0, (count - 1) as u16)
}

/// The rooms of the regions, in this list.
fn rooms_of(regions: Vec<Region>, mut rooms: Vec<Room>) -> Vec<Room>
    requires empty { rooms.items ≡ [] }
    requires space { length regions.items ≤ vec_capacity rooms }
    ensures { result.items ≡ map (λ (g : Finisher). g.bench.room) regions.items }
{
    for region in regions {
        rooms.push_reserved(region.into_room());
    }
    rooms
}

/// The result of a job whose regions, given by their numbers, have nothing left, as an evaluation on one thread gives it. The rooms
/// go into `rooms`, which is empty, with space for all. It takes no memory.
pub fn finish(job: &Job, mut regions: Vec<Region>, rooms: Vec<Room>) -> Finished
    requires regions { AreAllRegions job.now regions.items }
    requires nothing_left { HaveNothingLeft job.now regions.items }
    requires empty { rooms.items ≡ [] }
    requires space { length regions.items ≤ vec_capacity rooms }
    ensures { IsResult job.now (final (machine job.now)) result.output result.bad result.notes.items result.rooms.items }
{
    job.facts();
    let Some(notebook) = regions[0].take_notebook() else {
        unreachable!();
    };
    let output = output_of(job, regions.as_slice());
    let bad = least_fault(job, regions.as_slice());
    let notes = notes_of(job, regions.as_slice(), notebook);
    let rooms = rooms_of(regions, rooms);
    Finished {
        output,
        bad,
        notes,
        rooms,
    }
}
