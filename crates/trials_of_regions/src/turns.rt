//! The regions of a job, opened with a table, and run in turn.
ghost use Rattle.std.specs.Prelude.{◌≡◌, ◌≤◌, ◌<◌, true, length, IfOk, IfSome};
ghost use Rattle.boundary_table.specs.Desk.{desk_of};
ghost use Rattle.core_machine.specs.Machine.{final};
ghost use Rattle.core_machine.specs.Core.{machine, IsResult};
ghost use Rattle.core_machine.specs.Keys.{contents_of, owners_of};
ghost use Rattle.region_engine.specs.Regions.{IsRegionOf};
ghost use Rattle.region_engine.specs.Endings.{AreAllRegions, HaveNothingLeft};
ghost use Rattle.trials_of_regions.specs.Standing.{AreStanding};

use boundary_table::{Boundary, Desk};
use core_machine::{Finished, Job};
use lido_base::Memory;
use region_engine::{Region, deliver, finish};
use std::alloc::Global;

/// A region at its opening, with a desk of the table; `shared` tells whether the desk draws the region's number.
fn region(
    alloc: Global,
    job: &Job,
    boundary: &Boundary,
    mut desk: Desk,
    number: u32,
    shared: bool,
) -> Result<Region, Memory>
    requires number { number ≤ length job.now.nodes }
    requires desk { desk ≡ desk_of boundary.now (contents_of job.now) (owners_of job.now) }
    ensures region { IfOk result (λ g. IsRegionOf job.now number g) }
    ensures table { IfOk result (λ g. g.desk.table ≡ boundary.now) }
{
    let numbered = shared && boundary.number(&mut desk, number).is_ok();
    Region::new(alloc, job, number, desk, numbered)
}

/// Both regions of a job that has two, with their table.
pub fn opened(alloc: Global, job: &Job, shared: bool) -> Result<(Boundary, Vec<Region>), Memory>
    requires { length job.now.nodes ≡ 1 }
    ensures { IfOk result (λ r. AreStanding job.now r.0 r.1.items) }
{
    let (boundary, mut desks) = Boundary::new(alloc, job, 2)?;
    let Some(first) = desks.pop() else {
        return Err(Memory);
    };
    let Some(second) = desks.pop() else {
        return Err(Memory);
    };
    let root = region(alloc, job, &boundary, first, 0, shared)?;
    let split = region(alloc, job, &boundary, second, 1, shared)?;
    let regions = vec![in alloc; root, split]?;
    Ok((boundary, regions))
}

/// One region runs, and what it put is delivered.
pub fn turn(job: &Job, boundary: &Boundary, regions: &mut [Region], place: usize)
    requires standing { AreStanding job.now boundary.now regions.old }
    requires place { place < length regions.old }
    ensures { AreStanding job.now boundary.now regions.new }
{
    regions[place].run(job, boundary);
    deliver(job, regions);
}

/// Nine turns by the binary digits of a number, the last one first: 0 is a turn of the root's region, 1 one of the other.
pub fn turns_by(job: &Job, boundary: &Boundary, regions: &mut [Region], digits: u32)
    requires standing { AreStanding job.now boundary.now regions.old }
    requires two { length regions.old ≡ 2 }
    ensures { AreStanding job.now boundary.now regions.new }
{
    let mut rest = digits;
    for _ in 0..9u8 {
        turn(job, boundary, regions, (rest % 2) as usize);
        rest /= 2;
    }
}

/// As many turns of both as the job of two items can need.
pub fn last_turns(job: &Job, boundary: &Boundary, regions: &mut [Region])
    requires standing { AreStanding job.now boundary.now regions.old }
    requires two { length regions.old ≡ 2 }
    ensures { AreStanding job.now boundary.now regions.new }
{
    for _ in 0..4u8 {
        turn(job, boundary, regions, 0);
        turn(job, boundary, regions, 1);
    }
}

/// Whether none of the regions has an item left.
fn are_finished(job: &Job, regions: &[Region]) -> bool
    requires { AreAllRegions job.now regions.now }
    ensures { result ≡ true → HaveNothingLeft job.now regions.now }
{
    for region in regions {
        if region.left(job) > 0 {
            return false;
        }
    }
    true
}

/// The result, if no region has an item left.
pub fn finished(alloc: Global, job: &Job, regions: Vec<Region>) -> Result<Option<Finished>, Memory>
    requires { AreAllRegions job.now regions.items }
    ensures { IfOk result (λ o. IfSome o (λ f. IsResult job.now (final (machine job.now)) f.output f.bad f.notes.items f.rooms.items)) }
{
    if !are_finished(job, regions.as_slice()) {
        return Ok(None);
    }
    let rooms = Vec::with_capacity(alloc, regions.len())?;
    Ok(Some(finish(job, regions, rooms)))
}
