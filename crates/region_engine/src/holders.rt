//! Which region has a value in the end.
ghost use Rattle.std.specs.Prelude.{◌≡◌, ◌<◌, ℕ, true, false, length, slice_get, Some};
ghost use Rattle.flat_grammar.specs.Instances.{IsInstance};
ghost use Rattle.core_machine.specs.Machine.{final};
ghost use Rattle.core_machine.specs.Core.{machine};
ghost use Rattle.region_engine.specs.declared.region.Region.{Region as Holder};
ghost use Rattle.region_engine.specs.Kept.{IsMarked};
ghost use Rattle.region_engine.specs.Endings.{AreDone, IsHeldBy};

use crate::region::Region;
use crate::sites::{key_at, region_at};
use core_machine::Job;
use flat_grammar::Occ;
use lido_base::{AttrId, Value};

/// The first region that has something under a key.
fn first_with(regions: &[Region], key: u32) -> usize
    requires { (r : ℕ) × (g : Holder) × (slice_get regions.now r ≡ Some g) × IsMarked g.values.marks.items key }
    ensures { (g : Holder) × (slice_get regions.now result ≡ Some g) × IsMarked g.values.marks.items key }
{
    for (place, region) in regions.iter().enumerate() {
        if region.has(key) {
            return place;
        }
    }
    unreachable!()
}

/// A region that has the value of an attribute of a node.
fn holder_of(job: &Job, regions: &[Region], node: u32, attr: u16) -> usize
    requires regions { AreDone job.now regions.now }
    requires node { node < length job.now.flat }
    requires instance { IsInstance job.now.symbols job.now.rules job.now.flat (node, attr) }
    ensures { IsHeldBy job.now regions.now (node, attr) result }
{
    job.facts();
    let o = Occ {
        occ: 0,
        attr: AttrId(attr),
    };
    match key_at(job, node, o) {
        Some(key) => first_with(regions, key),
        None => region_at(job, node) as usize,
    }
}

/// The value of an attribute of a node.
pub fn value_at(job: &Job, regions: &[Region], node: u32, attr: u16) -> Value
    requires regions { AreDone job.now regions.now }
    requires node { node < length job.now.flat }
    requires instance { IsInstance job.now.symbols job.now.rules job.now.flat (node, attr) }
    ensures { (final (machine job.now)).values (node, attr) ≡ Some result }
{
    job.facts();
    let holder = holder_of(job, regions, node, attr);
    regions[holder].value_at(job, node, attr)
}
