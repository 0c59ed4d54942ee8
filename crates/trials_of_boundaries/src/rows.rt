//! Workers that use many keys.
ghost use Rattle.std.specs.Prelude.{◌≡◌, ◌<◌, All, IfSome};
ghost use Rattle.lido_base.specs.declared.value.Value.{Value};
ghost use Rattle.trials_of_boundaries.specs.Rows.{value_at, contents_of, owners_of, IsUnused, IsReady};

use boundary_table::{Boundary, Desk};
use lido_base::{Contents, Value};
use std::marker::Sync;
use std::thread;
use std::thread::Threads;

/// As many keys, each with a value of its own, which four regions store in turn.
#[derive(Clone, Copy)]
pub struct Rows {
    pub count: u16,
}

impl Contents for Rows {
    ghost contents = { λ r. contents_of r.count };

    ghost owners = { λ r. owners_of r.count };

    #[tactic(auto, using(crate::proofs::RowsLemmas::all_fit))]
    fn keys(&self) -> u32 {
        u32::from(self.count)
    }
}

/// A region with its desk, and whether it saw nothing but the contents.
#[derive(Drop)]
pub struct Worker {
    pub desk: Desk,
    pub region: u32,
    pub right: bool,
}

/// The value of the key.
pub(crate) fn value_of(key: u16) -> Value
    ensures { result ≡ value_at key }
{
    Value::Int(i64::from(key) * 0x1_0000_0001)
}

/// A worker for the region, with one of the desks and the region's number, unless that is taken.
fn hire(boundary: &Boundary, rows: Rows, desks: &mut Vec<Desk>, region: u32) -> Option<Worker>
    requires { All (IsUnused boundary.now rows.count) desks.old.items }
    ensures desks { All (IsUnused boundary.now rows.count) desks.new.items }
    ensures worker { IfSome result (IsReady boundary.now rows.count) }
{
    let desk = desks.pop()?;
    enlist(boundary, rows, desk, region)
}

/// A worker for each of the regions 0 to 3.
fn crew(boundary: &Boundary, rows: Rows, desks: &mut Vec<Desk>) -> Option<[Worker; 4]>
    requires { All (IsUnused boundary.now rows.count) desks.old.items }
    ensures desks { All (IsUnused boundary.now rows.count) desks.new.items }
    ensures workers { IfSome result (λ four. All (IsReady boundary.now rows.count) four) }
{
    let zero = hire(boundary, rows, desks, 0)?;
    let one = hire(boundary, rows, desks, 1)?;
    let two = hire(boundary, rows, desks, 2)?;
    let three = hire(boundary, rows, desks, 3)?;
    Some([zero, one, two, three])
}

fn enlist(boundary: &Boundary, rows: Rows, desk: Desk, region: u32) -> Option<Worker>
    requires { IsUnused boundary.now rows.count desk }
    ensures { IfSome result (IsReady boundary.now rows.count) }
{
    let mut desk = desk;
    boundary.number(&mut desk, region).ok()?;
    Some(Worker {
        desk,
        region,
        right: true,
    })
}

#[tactic(auto, using(crate::proofs::RowsLemmas::value_there))]
/// Whether the key's value is there. A wrong one is noted.
fn look(boundary: &Boundary, rows: Rows, worker: &mut Worker, key: u16) -> bool
    requires ready { IsReady boundary.now rows.count worker.old }
    requires key { key < rows.count }
    ensures { IsReady boundary.now rows.count worker.new }
{
    let found = boundary.get(&mut worker.desk, u32::from(key));
    match found {
        Ok(value) => {
            worker.right &= value == value_of(key);
            true
        }
        Err(_) => false,
    }
}

#[tactic(auto, using(crate::proofs::RowsLemmas::value_there, crate::proofs::RowsLemmas::owner_there))]
/// Puts the key's value, if the key is the worker's.
fn store(boundary: &Boundary, rows: Rows, worker: &mut Worker, key: u16)
    requires ready { IsReady boundary.now rows.count worker.old }
    requires key { key < rows.count }
    ensures { IsReady boundary.now rows.count worker.new }
{
    if u32::from(key % 4) == worker.region {
        boundary.put(&mut worker.desk, u32::from(key), value_of(key));
    }
}

/// How many values are there.
fn count_there(boundary: &Boundary, rows: Rows, worker: &mut Worker) -> u32
    requires { IsReady boundary.now rows.count worker.old }
    ensures { IsReady boundary.now rows.count worker.new }
{
    let mut there: u32 = 0;
    for key in 0..rows.count {
        if look(boundary, rows, worker, key) {
            there = there.saturating_add(1);
        }
    }
    there
}

/// Puts the worker's keys and looks at all.
fn work(boundary: &Boundary, rows: Rows, worker: &mut Worker)
    requires { IsReady boundary.now rows.count worker.old }
    ensures { IsReady boundary.now rows.count worker.new }
{
    for key in 0..rows.count {
        store(boundary, rows, worker, key);
        let _there = look(boundary, rows, worker, key);
    }
}

/// All workers at once.
fn work_at_once<R: Threads + Sync>(rt: &R, boundary: &Boundary, rows: Rows, workers: &mut [Worker])
    requires { All (IsReady boundary.now rows.count) workers.old }
    ensures { All (IsReady boundary.now rows.count) workers.new }
{
    thread::for_each_mut(rt, workers, 4, &|_, worker| work(boundary, rows, worker));
}

/// What a reader finds before and after four workers, and whether all saw nothing but the contents.
#[derive(Clone, Copy)]
pub(crate) struct Seen {
    pub(crate) before: u32,
    pub(crate) after: u32,
    pub(crate) right: bool,
}

/// Four workers at once, between two looks of a reader at all keys.
pub(crate) fn before_and_after<R: Threads + Sync>(
    rt: &R,
    boundary: &Boundary,
    rows: Rows,
    desks: &mut Vec<Desk>,
) -> Option<Seen>
    requires { All (IsUnused boundary.now rows.count) desks.old.items }
{
    let mut workers = crew(boundary, rows, desks)?;
    let mut reader = hire(boundary, rows, desks, 4)?;
    let before = count_there(boundary, rows, &mut reader);
    work_at_once(rt, boundary, rows, &mut workers);
    let after = count_there(boundary, rows, &mut reader);
    let right = reader.right && workers.iter().all(|worker| worker.right);
    Some(Seen {
        before,
        after,
        right,
    })
}
