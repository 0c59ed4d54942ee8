//! A region at work.
ghost use Rattle.std.specs.Prelude.{◌≡◌, ◌<◌, ◌≤◌, ℕ, Contains, ◌+◌, ◌⊎◌, true, false};
ghost use Rattle.std.specs.Prelude.{[], ◌∷◌, if◌then◌else◌, length, slice_get, unwrap_or, IfOk, OnOk, OnErr, Some};
ghost use Rattle.boundary_table.specs.Desk.{IsOwner};
ghost use Rattle.flat_grammar.specs.WholeOrder.{Instance};
ghost use Rattle.flat_grammar.specs.Instances.{instance_at};
ghost use Rattle.core_machine.specs.Instances.{IsSite};
ghost use Rattle.core_machine.specs.Keys.{key_of, IsShared};
ghost use Rattle.core_machine.specs.Machine.{eval_of, put_of};
ghost use Rattle.core_machine.specs.Cursors.{left, IsFirst};
ghost use Rattle.region_engine.specs.Behind.{keys_at, list, named_keys};
ghost use Rattle.region_engine.specs.Steps.{IsEmptyBench, IsLeft};
ghost use Rattle.core_machine.specs.Keys.{contents_of};
ghost use Rattle.lido_base.specs.declared.value.Value.TheVariants as value;
ghost use Rattle.region_engine.specs.Deliveries.{HasNewDesk, IsGiven};
ghost use Rattle.region_engine.specs.Kept.{own_offsets, stored, IsMarked};
ghost use Rattle.region_engine.specs.Regions.{WasDelivered, items_left, number as number_of, IsDesk, IsOpening, IsRegion, IsSame, IsWaiting};

use crate::evaluation::{Bench, evaluate_next};
use crate::marks::Mark;
use crate::notebook::{Notebook, notebook_of};
use crate::sizes::{cells_of_region, stack_room};
use crate::values::Values;
use boundary_table::{Boundary, Desk, NotYet};
use core_machine::{Cursor, Item, Job};
use flat_grammar::Occ;
use lido_base::{AttrId, Memory, Value};
use std::alloc::Global;
use string_librarian::Room;

/// A region of a job: where it stands in its list, which it doesn't store, and what it has so far.
///
/// It belongs to the job for which it was made.
#[derive(Drop)]
pub struct Region {
    cursor: Cursor,
    /// How many items its list has.
    count: u32,
    /// How many of them were used.
    position: u32,
    values: Values,
    bench: Bench,
    /// The keys that it put, in order.
    puts: Vec<u32>,
    desk: Desk,
    /// Whether the desk drew the region's number, without which it can't store.
    numbered: bool,
    /// The position at which the desk was given.
    since: u32,
    /// What the region of the root keeps for the end; the others keep nothing.
    notebook: Option<Notebook>,
}

/// 1 for a put, 0 for an evaluation.
fn puts_of(item: Item) -> u32
    ensures { result ≡ length (named_keys item) }
{
    match item {
        Item::Put { .. } => 1,
        Item::Eval { .. } => 0,
    }
}

/// How many items the list of a region has, and how many of them are puts.
fn counts(alloc: Global, job: &Job, number: u32) -> Result<(u32, u32), Memory>
    requires { number ≤ length job.now.nodes }
    ensures items { IfOk result (λ r. r.0 ≡ length (list job.now number)) }
    ensures puts { IfOk result (λ r. r.1 ≡ length (keys_at job.now number r.0)) }
{
    job.facts();
    let mut cursor = Cursor::new(alloc, job, number)?;
    let mut items = 0;
    let mut puts = 0;
    while let Some(item) = cursor.item(job) {
        items += 1;
        puts += puts_of(item);
        cursor.step(job);
    }
    Ok((items, puts))
}

/// What a region builds with: an empty room with space for all its texts, and a stack for the arguments of each computation.
fn empty_bench(alloc: Global, job: &Job, number: u32) -> Result<Bench, Memory>
    requires { number ≤ length job.now.nodes }
    ensures { IfOk result (IsEmptyBench job.now number) }
{
    job.facts();
    let space = cells_of_region(alloc, job, number)?;
    let room = Room::with_space(alloc, number as u16, space)?;
    let stack = Vec::with_capacity(alloc, stack_room(alloc, job)?)?;
    Ok(Bench { room, stack })
}

/// Leaves the value of a key in the table, where the desk drew its region's number.
fn leave(boundary: &Boundary, desk: &mut Desk, numbered: bool, key: u32, value: Value)
    requires table { desk.old.table ≡ boundary.now }
    requires value { slice_get desk.old.view.contents key ≡ Some value }
    requires owner { numbered ≡ true → IsOwner desk.old key }
    ensures { IsLeft numbered desk.old desk.new key }
{
    if numbered {
        boundary.put(desk, key, value);
    }
}

impl Region {
    /// The region of this number at its opening. `numbered` tells whether its desk drew that number; with a desk that drew none it
    /// puts nothing into the table.
    ///
    /// # Errors
    ///
    /// `Memory` where memory ran out. The region needs none later; that of the root also takes the space for the notes of `finish`.
    pub fn new(
        alloc: Global,
        job: &Job,
        number: u32,
        desk: Desk,
        numbered: bool,
    ) -> Result<Region, Memory>
        requires region { number ≤ length job.now.nodes }
        requires desk { IsDesk job.now desk (if numbered then number ∷ [] else []) }
        requires nothing_stored { desk.view.mine ≡ [] }
        ensures opening { IfOk result (IsOpening job.now number) }
        ensures desk { IfOk result (λ g. (g.desk ≡ desk) × (g.numbered ≡ numbered)) }
    {
        job.facts();
        let cursor = Cursor::new(alloc, job, number)?;
        let (count, puts) = counts(alloc, job, number)?;
        let values = Values::new(alloc, job, number)?;
        let bench = empty_bench(alloc, job, number)?;
        let puts = Vec::with_capacity(alloc, puts as usize)?;
        let notebook = notebook_of(alloc, job, number)?;
        Ok(Region {
            cursor,
            count,
            position: 0,
            values,
            bench,
            puts,
            desk,
            numbered,
            since: 0,
            notebook,
        })
    }

    /// How many items of the region's list are left. It takes no memory.
    pub fn left(&self, job: &Job) -> u32
        requires { IsRegion job.now self.now }
        ensures { result ≡ items_left job.now self.now }
    {
        let _ = job;
        self.count - self.position
    }

    /// How many items the region has used. It takes no memory.
    pub fn position(&self) -> u32
        ensures { result ≡ self.now.position }
    {
        self.position
    }

    /// Evaluates the next item of the list.
    fn evaluate(
        &mut self,
        job: &Job,
        boundary: &Boundary,
        node: u32,
        goal: Occ,
    ) -> Result<(), NotYet>
        requires region { IsRegion job.now self.old }
        requires table { self.old.desk.table ≡ boundary.now }
        requires site { let i = instance_at job.now.flat node goal in IsSite job.now.symbols job.now.rules job.now.flat i node goal }
        requires next { slice_get (list job.now (number_of self.old)) self.old.position ≡ Some (eval_of (instance_at job.now.flat node goal)) }
        ensures region { IsRegion job.now self.new }
        ensures same { IsSame self.old self.new }
        ensures used { OnOk result (self.new.position ≡ self.old.position + 1) }
        ensures stays { OnErr result (self.new.position ≡ self.old.position) }
        ensures waits { OnErr result (IsWaiting job.now self.old self.new) }
    {
        job.facts();
        let values = &mut self.values;
        match evaluate_next(
            job,
            boundary,
            node,
            goal,
            values,
            &mut self.bench,
            &mut self.desk,
        ) {
            Ok(()) => {
                self.cursor.step(job);
                self.position += 1;
                Ok(())
            }
            Err(not_yet) => Err(not_yet),
        }
    }

    /// Puts what was evaluated last, the next item of the list.
    fn put(&mut self, job: &Job, boundary: &Boundary, key: u32)
        requires region { IsRegion job.now self.old }
        requires table { self.old.desk.table ≡ boundary.now }
        requires next { (i : Instance) × (slice_get (list job.now (number_of self.old)) self.old.position ≡ Some (put_of i)) × IsShared job.now i
            × (key ≡ key_of job.now i) }
        ensures region { IsRegion job.now self.new }
        ensures same { IsSame self.old self.new }
        ensures used { self.new.position ≡ self.old.position + 1 }
    {
        job.facts();
        let value = self.values.shared[key as usize];
        leave(boundary, &mut self.desk, self.numbered, key, value);
        self.puts.push_reserved(key);
        self.cursor.step(job);
        self.position += 1;
    }

    /// Uses the item at which the region stands.
    fn use_next(&mut self, job: &Job, boundary: &Boundary, item: Item) -> Result<(), NotYet>
        requires region { IsRegion job.now self.old }
        requires table { self.old.desk.table ≡ boundary.now }
        requires first { IsFirst job.now (left job.now self.old.cursor) (Some item) }
        ensures region { IsRegion job.now self.new }
        ensures same { IsSame self.old self.new }
        ensures used { OnOk result (self.new.position ≡ self.old.position + 1) }
        ensures stays { OnErr result (self.new.position ≡ self.old.position) }
        ensures waits { OnErr result (IsWaiting job.now self.old self.new) }
    {
        match item {
            Item::Eval { node, occ } => self.evaluate(job, boundary, node.0, occ),
            Item::Put { key } => {
                self.put(job, boundary, key);
                Ok(())
            }
        }
    }

    /// Goes along the region's list, and gives how many items it used. It takes no memory.
    ///
    /// It stops only at the end, or at an evaluation that needs something of another region which wasn't delivered, and which the
    /// table didn't have when this call looked.
    pub fn run(&mut self, job: &Job, boundary: &Boundary) -> u32
        requires region { IsRegion job.now self.old }
        requires table { self.old.desk.table ≡ boundary.now }
        ensures region { IsRegion job.now self.new }
        ensures same { IsSame self.old self.new }
        ensures used { self.new.position ≡ self.old.position + result }
        ensures stops { (items_left job.now self.new ≡ 0) ⊎ IsWaiting job.now self.old self.new }
    {
        let mut used = 0;
        while let Some(item) = self.cursor.item(job) {
            match self.use_next(job, boundary, item) {
                Ok(()) => used += 1,
                Err(_) => return used,
            }
        }
        used
    }

    /// How many keys the region put.
    pub(crate) fn puts(&self) -> usize
        ensures { result ≡ length self.now.puts.items }
    {
        self.puts.len()
    }

    /// The key of a put, counted from 0, and its value.
    pub(crate) fn put_at(&self, job: &Job, place: usize) -> (u32, Value)
        requires region { IsRegion job.now self.now }
        requires place { place < length self.now.puts.items }
        ensures key { slice_get self.now.puts.items place ≡ Some result.0 }
        ensures value { slice_get (contents_of job.now) result.0 ≡ Some result.1 }
    {
        job.facts();
        let key = self.puts[place];
        let value = self.values.shared[key as usize];
        (key, value)
    }

    /// Has the value of a key delivered.
    pub(crate) fn take(&mut self, job: &Job, key: u32, value: Value)
        requires region { IsRegion job.now self.old }
        requires value { slice_get (contents_of job.now) key ≡ Some value }
        ensures region { IsRegion job.now self.new }
        ensures given { IsGiven (key ∷ []) self.old self.new }
    {
        job.facts();
        self.values.deliver(key, value);
    }

    /// Whether the region has something under a key.
    pub(crate) fn has(&self, key: u32) -> bool
        ensures yes { result ≡ true → IsMarked self.now.values.marks.items key }
        ensures no { result ≡ false → ¬ IsMarked self.now.values.marks.items key }
    {
        match self.values.marks.get(key as usize) {
            Some(Mark::Evaluated) | Some(Mark::Delivered) => true,
            Some(Mark::Missing) | None => false,
        }
    }

    /// The value of an attribute of a node; `Void` where the region keeps none for it.
    pub(crate) fn value_at(&self, job: &Job, node: u32, attr: u16) -> Value
        requires node { node < length job.now.flat }
        requires begins { self.now.values.begins.items ≡ own_offsets job.now (number_of self.now) }
        ensures { result ≡ unwrap_or (stored job.now (number_of self.now) self.now.values.own.items self.now.values.shared.items (node, attr)) value.Void }
    {
        let o = Occ {
            occ: 0,
            attr: AttrId(attr),
        };
        self.values.read(job, node, o)
    }

    /// The notebook of the region, if it has one, which it has no longer.
    pub(crate) fn take_notebook(&mut self) -> Option<Notebook>
        ensures notebook { result ≡ self.old.notebook }
        ensures values { self.new.values ≡ self.old.values }
        ensures bench { self.new.bench ≡ self.old.bench }
    {
        self.notebook.take()
    }

    /// The room of the region.
    pub(crate) fn into_room(self) -> Room
        ensures { result ≡ self.bench.room }
    {
        let Region { bench, .. } = self;
        let Bench { room, .. } = bench;
        room
    }

    /// Gives the region the desk of another table of the job, and gives back the one that it had. `numbered` tells whether the new
    /// desk drew the region's number. It takes no memory.
    pub fn change_desk(&mut self, job: &Job, desk: Desk, numbered: bool) -> Desk
        requires region { IsRegion job.now self.old }
        requires delivered { (key : ℕ) → Contains self.old.puts.items key → WasDelivered self.old key }
        requires desk { IsDesk job.now desk (if numbered then number_of self.old ∷ [] else []) }
        requires nothing_stored { desk.view.mine ≡ [] }
        ensures region { IsRegion job.now self.new }
        ensures desk { (self.new.desk ≡ desk) × (self.new.numbered ≡ numbered) }
        ensures since { self.new.since ≡ self.new.position }
        ensures same { HasNewDesk self.old self.new }
        ensures back { result ≡ self.old.desk }
    {
        let _ = job;
        self.numbered = numbered;
        self.since = self.position;
        std::mem::replace(&mut self.desk, desk)
    }
}
