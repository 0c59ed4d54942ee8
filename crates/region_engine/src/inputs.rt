//! What an evaluation needs of other regions: what was delivered, and what the table has.
ghost use Rattle.std.specs.Prelude.{◌≡◌, ◌<◌, length, OnOk, OnErr, flat_map};
ghost use Rattle.flat_grammar.specs.Rules.{dependencies, reads};
ghost use Rattle.core_machine.specs.Keys.{contents_of, key_count};
ghost use Rattle.region_engine.specs.Inputs.{AllAtHand, IsAtHand, IsLook, IsMissed, OneMissed};

use crate::marks::Mark;
use crate::sites::key_at;
use boundary_table::{Boundary, Desk, NotYet};
use core_machine::Job;
use flat_grammar::{FlatComp, FlatExpr, Occ, arguments};
use lido_base::Value;

/// Looks for the value of an attribute occurrence where it passes between regions and none is there under its key.
fn look(
    job: &Job,
    boundary: &Boundary,
    node: u32,
    o: Occ,
    marks: &[Mark],
    shared: &mut [Value],
    desk: &mut Desk,
) -> Result<(), NotYet>
    requires node { node < length job.now.flat }
    requires table { desk.old.table ≡ boundary.now }
    requires contents { desk.old.view.contents ≡ contents_of job.now }
    requires marks { length marks.now ≡ key_count job.now }
    requires shared { length shared.old ≡ key_count job.now }
    ensures look { IsLook job.now shared.old desk.old shared.new desk.new }
    ensures at_hand { OnOk result (IsAtHand job.now node marks.now shared.new desk.new o) }
    ensures missed { OnErr result (IsMissed job.now node marks.now desk.old desk.new o) }
{
    let Some(key) = key_at(job, node, o) else {
        return Ok(());
    };
    let Some(Mark::Missing) = marks.get(key as usize) else {
        return Ok(());
    };
    match boundary.get(desk, key) {
        Ok(value) => {
            shared[key as usize] = value;
            Ok(())
        }
        Err(not_yet) => Err(not_yet),
    }
}

/// Looks for the values of these attribute occurrences.
fn look_each(
    job: &Job,
    boundary: &Boundary,
    node: u32,
    list: &[Occ],
    marks: &[Mark],
    shared: &mut [Value],
    desk: &mut Desk,
) -> Result<(), NotYet>
    requires node { node < length job.now.flat }
    requires table { desk.old.table ≡ boundary.now }
    requires contents { desk.old.view.contents ≡ contents_of job.now }
    requires marks { length marks.now ≡ key_count job.now }
    requires shared { length shared.old ≡ key_count job.now }
    ensures look { IsLook job.now shared.old desk.old shared.new desk.new }
    ensures at_hand { OnOk result (AllAtHand job.now node marks.now shared.new desk.new list.now) }
    ensures missed { OnErr result (OneMissed job.now node marks.now desk.old desk.new list.now) }
{
    for o in list {
        look(job, boundary, node, *o, marks, shared, desk)?;
    }
    Ok(())
}

/// Looks for the values that an expression reads.
fn look_reads(
    job: &Job,
    boundary: &Boundary,
    node: u32,
    value: &FlatExpr,
    marks: &[Mark],
    shared: &mut [Value],
    desk: &mut Desk,
) -> Result<(), NotYet>
    requires node { node < length job.now.flat }
    requires table { desk.old.table ≡ boundary.now }
    requires contents { desk.old.view.contents ≡ contents_of job.now }
    requires marks { length marks.now ≡ key_count job.now }
    requires shared { length shared.old ≡ key_count job.now }
    ensures look { IsLook job.now shared.old desk.old shared.new desk.new }
    ensures at_hand { OnOk result (AllAtHand job.now node marks.now shared.new desk.new (reads value.now)) }
    ensures missed { OnErr result (OneMissed job.now node marks.now desk.old desk.new (reads value.now)) }
{
    if let FlatExpr::Read(o) = value {
        return look(job, boundary, node, *o, marks, shared, desk);
    }
    for argument in arguments(value) {
        look_reads(job, boundary, node, argument, marks, shared, desk)?;
    }
    Ok(())
}

/// Looks for the values on which a computation depends.
///
/// # Errors
///
/// `NotYet` where one of them passes between regions, nothing is there under its key, and the table doesn't have it yet.
pub fn look_all(
    job: &Job,
    boundary: &Boundary,
    node: u32,
    comp: &FlatComp,
    marks: &[Mark],
    shared: &mut [Value],
    desk: &mut Desk,
) -> Result<(), NotYet>
    requires node { node < length job.now.flat }
    requires table { desk.old.table ≡ boundary.now }
    requires contents { desk.old.view.contents ≡ contents_of job.now }
    requires marks { length marks.now ≡ key_count job.now }
    requires shared { length shared.old ≡ key_count job.now }
    ensures look { IsLook job.now shared.old desk.old shared.new desk.new }
    ensures at_hand { OnOk result (AllAtHand job.now node marks.now shared.new desk.new (dependencies comp.now)) }
    ensures missed { OnErr result (OneMissed job.now node marks.now desk.old desk.new (dependencies comp.now)) }
{
    look_reads(job, boundary, node, &comp.value, marks, shared, desk)?;
    look_each(
        job,
        boundary,
        node,
        comp.after.as_slice(),
        marks,
        shared,
        desk,
    )
}
