//! What regions put reaches the others.
ghost use Rattle.std.specs.Prelude.{◌≡◌, ◌<◌, ◌∷◌, [], length, slice_get, Some};
ghost use Rattle.core_machine.specs.Keys.{contents_of};
ghost use Rattle.region_engine.specs.declared.region.Region.{Region as Giver};
ghost use Rattle.region_engine.specs.Deliveries.{all_puts, AreGiven, AreRegions};

use crate::region::Region;
use core_machine::Job;
use lido_base::Value;

/// Delivers the value of a key to each region.
fn give_each(job: &Job, regions: &mut [Region], key: u32, value: Value)
    requires regions { AreRegions job.now regions.old }
    requires value { slice_get (contents_of job.now) key ≡ Some value }
    ensures regions { AreRegions job.now regions.new }
    ensures given { AreGiven (key ∷ []) regions.old regions.new }
{
    for region in regions.iter_mut() {
        region.take(job, key, value);
    }
}

/// Delivers to each region what one of them put.
fn give_puts(job: &Job, regions: &mut [Region], giver: usize)
    requires regions { AreRegions job.now regions.old }
    requires giver { giver < length regions.old }
    ensures regions { AreRegions job.now regions.new }
    ensures given { (g : Giver) → slice_get regions.old giver ≡ Some g → AreGiven g.puts.items regions.old regions.new }
{
    for place in 0..regions[giver].puts() {
        let (key, value) = regions[giver].put_at(job, place);
        give_each(job, regions, key, value);
    }
}

/// Delivers to each region what any of them put. It takes no memory.
pub fn deliver(job: &Job, regions: &mut [Region])
    requires { AreRegions job.now regions.old }
    ensures regions { AreRegions job.now regions.new }
    ensures given { AreGiven (all_puts regions.old) regions.old regions.new }
{
    for giver in 0..regions.len() {
        give_puts(job, regions, giver);
    }
}
