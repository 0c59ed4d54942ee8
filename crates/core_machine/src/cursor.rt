//! The cursor: where a region stands in its list, which is stored nowhere.
ghost use Rattle.std.specs.Prelude.{◌≡◌, ◌+◌, ◌-◌, ◌≤◌, ◌<◌, ◌^◌, ◌⊎◌, [], ◌∷◌, ◌++◌};
ghost use Rattle.std.specs.Prelude.{true, false, drop, length, IfOk, IsSome, map, max, MatchOption, Some, slice_get, take, ℕ};
ghost use Rattle.std.specs.List.{range_with_len};
ghost use Rattle.lido_base.specs.Tree.{contains, parent_of, IsNode};
ghost use Rattle.tree_store.specs.Regions.{number_among, region};
ghost use Rattle.flat_grammar.specs.declared.plan.PlanItem.TheVariants.{Eval, Visit, Leave};
ghost use Rattle.flat_grammar.specs.WholeOrder.{child_at, node_at, segment, sequence_at};
ghost use Rattle.core_machine.specs.Machine.{own};
ghost use Rattle.core_machine.specs.Core.{items, machine};
ghost use Rattle.core_machine.specs.Walks.{root_of};
ghost use Rattle.core_machine.specs.Cursors.{left, left_of, level, levels, IsCursor, IsFirst, IsInside, IsMove, IsReady, with_top};
ghost use Rattle.core_machine.specs.Keys.{key_of};
ghost use Rattle.flat_grammar.specs.Instances.{instance_at};

use crate::Job;
use flat_grammar::{Occ, PlanItem};
use lido_base::{Memory, NodeId};
use std::alloc::Global;
use std::marker::Model;

/// An item of a region's list.
#[derive(Clone, Copy, Debug, PartialEq, Eq)]
pub enum Item {
    /// The rule of the node computes this goal.
    Eval { node: NodeId, occ: Occ },
    /// What was just computed, an attribute of a split node, is put under its key for other regions.
    Put { key: u32 },
}

/// A visit under way: its node, and the place of the next item in the sequence of the node's rule.
#[derive(Clone, Copy, Debug)]
struct Frame {
    node: u32,
    place: usize,
}

/// Where a region stands in its list of items.
///
/// It keeps the visits under way, at most as many as the region has levels, and no list. It belongs to the job for which it was made.
#[derive(Debug, Drop)]
pub struct Cursor {
    frames: Vec<Frame>,
    region: u32,
    put: bool,
}

impl Model for Cursor {
    ghost use Rattle.std.specs.Prelude.{vec_capacity};
    ghost use Rattle.core_machine.specs.Cursors.{CursorState};

    ghost Value = { CursorState };

    ghost view = { λ c. record { region = c.region; put = c.put; frames = c.frames.items; room = vec_capacity c.frames } };
}

impl Frame {
    /// The frame with the place one further.
    fn behind(self) -> Frame
        requires { self.place < 2 ^ 64 - 1 }
        ensures node { result.node ≡ self.node }
        ensures place { result.place ≡ self.place + 1 }
    {
        Frame {
            node: self.node,
            place: self.place + 1,
        }
    }
}

/// The item at which a visit stands, if one is left in the sequence.
fn next_at(job: &Job, frame: Frame) -> Option<PlanItem>
    requires { frame.node < length job.now.flat }
    ensures item { result ≡ slice_get (sequence_at job.now.flat job.now.seqs frame.node) frame.place }
    ensures within { IsSome result → frame.place < 2 ^ 64 - 1 }
{
    sequence(job, frame.node).get(frame.place).copied()
}

/// The visit sequence of a node's rule.
fn sequence(job: &Job, node: u32) -> &[PlanItem]
    requires { node < length job.now.flat }
    ensures { result.now ≡ sequence_at job.now.flat job.now.seqs node }
{
    job.facts();
    let rule = job.trees().flat.rule(NodeId(node));
    job.plan().seqs.as_slice()[rule.0 as usize].as_slice()
}

/// Where a visit, counted from 1, begins in a sequence.
fn start_of(items: &[PlanItem], visit: u16) -> usize
    ensures within { result ≤ length items.now }
    ensures segment { segment 0 (drop result items.now) ≡ segment (visit - 1) items.now }
{
    let mut ends = visit.saturating_sub(1);
    for (place, item) in items.iter().enumerate() {
        if ends == 0 {
            return place;
        }
        if matches!(item, PlanItem::Leave { .. }) {
            ends -= 1;
        }
    }
    items.len()
}

/// The region that begins at a node; `None` where it is no split node.
fn begun_at(job: &Job, node: u32) -> Option<u32>
    requires { node < length job.now.flat }
    ensures { MatchOption result (contains node job.now.nodes ≡ false)
        (λ r. (contains node job.now.nodes ≡ true) × (r ≡ number_among job.now.nodes node) × (0 < r) × (r < 256)) }
{
    job.facts();
    let region = region_at(job, node);
    if region > 0 && job.split().nodes.as_slice()[region as usize - 1].0 == node {
        Some(region)
    } else {
        None
    }
}

/// The region of a node.
fn region_at(job: &Job, node: u32) -> u32
    requires { node < length job.now.flat }
    ensures region { result ≡ region job.now.flat job.now.nodes node }
    ensures small { result < 256 }
{
    job.split().region_of.as_slice()[node as usize] as u32
}

/// The node at which a region begins.
fn begin_of(job: &Job, region: u32) -> u32
    requires { region ≤ length job.now.nodes }
    ensures { result ≡ root_of job.now.nodes region }
{
    if region == 0 {
        0
    } else {
        job.split().nodes.as_slice()[region as usize - 1].0
    }
}

/// The node at an occurrence that a node's sequence evaluates.
fn node_of(job: &Job, node: u32, place: usize, occ: Occ) -> u32
    requires inside { node < length job.now.flat }
    requires evaluated { slice_get (sequence_at job.now.flat job.now.seqs node) place ≡ Some (Eval occ) }
    ensures node { result ≡ node_at job.now.flat node occ.occ }
    ensures inside { result < length job.now.flat }
{
    job.facts();
    if occ.occ == 0 {
        node
    } else {
        job.trees().flat.child(NodeId(node), occ.occ as u32).0
    }
}

/// The level of a node in its region, where those of the nodes before it are known.
fn level_of(job: &Job, node: u32, before: &[u32]) -> u32
    requires inside { node < length job.now.flat }
    requires few { node < 2 ^ 32 - 1 }
    requires before { before.now ≡ map (level job.now) (range_with_len 0 node) }
    ensures level { result ≡ level job.now node }
    ensures small { result ≤ node + 1 }
{
    job.facts();
    if begun_at(job, node).is_some() {
        return 1;
    }
    match job.trees().flat.parent(NodeId(node)) {
        None => 1,
        Some(parent) => before[parent.0 as usize] + 1,
    }
}

/// The greater of two levels, where the node is of the region, else the second.
fn greatest(job: &Job, number: u32, node: u32, level: u32, most: u32) -> u32
    requires { node < length job.now.flat }
    ensures own { region job.now.flat job.now.nodes node ≡ number → result ≡ max most level }
    ensures other { (region job.now.flat job.now.nodes node ≡ number → ⊥) → result ≡ most }
{
    if region_at(job, node) == number && level > most {
        level
    } else {
        most
    }
}

/// How many levels a region has.
fn levels_of(alloc: Global, job: &Job, region: u32) -> Result<u32, Memory>
    ensures { IfOk result (λ n. n ≡ levels job.now region) }
{
    let count = job.trees().flat.len();
    let mut before = Vec::with_capacity(alloc, count as usize)?;
    let mut most = 0;
    for node in 0..count {
        let level = level_of(job, node, &before);
        before.push_reserved(level);
        most = greatest(job, region, node, level, most);
    }
    Ok(most)
}

/// The key under which a node's evaluation is put.
fn put_key(job: &Job, top: Frame, occ: Occ) -> u32
    requires inside { top.node < length job.now.flat }
    requires evaluated { slice_get (sequence_at job.now.flat job.now.seqs top.node) top.place ≡ Some (Eval occ) }
    requires split { contains (node_at job.now.flat top.node occ.occ) job.now.nodes ≡ true }
    ensures { result ≡ key_of job.now (instance_at job.now.flat top.node occ) }
{
    let Some(region) = begun_at(job, node_of(job, top.node, top.place, occ)) else {
        unreachable!();
    };
    (region - 1) * 256 + occ.attr.0 as u32
}

/// Whether a node's evaluation is of an attribute of a split node.
fn is_shared(job: &Job, top: Frame, occ: Occ) -> bool
    requires inside { top.node < length job.now.flat }
    requires evaluated { slice_get (sequence_at job.now.flat job.now.seqs top.node) top.place ≡ Some (Eval occ) }
    ensures { result ≡ contains (node_at job.now.flat top.node occ.occ) job.now.nodes }
{
    begun_at(job, node_of(job, top.node, top.place, occ)).is_some()
}

impl Cursor {
    /// The cursor of a region, at the first item of its list.
    ///
    /// `Err` is want of memory.
    pub fn new(alloc: Global, job: &Job, region: u32) -> Result<Cursor, Memory>
        requires { region ≤ length job.now.nodes }
        ensures cursor { IfOk result (IsCursor job.now) }
        ensures region { IfOk result (λ c. c.region ≡ region) }
        ensures whole { IfOk result (λ c. left job.now c ≡ own (machine job.now) region (items job.now)) }
    {
        job.facts();
        let room = levels_of(alloc, job, region)?;
        let mut frames = Vec::with_capacity(alloc, room as usize)?;
        frames.push_reserved(Frame {
            node: begin_of(job, region),
            place: 0,
        });
        let mut cursor = Cursor {
            frames,
            region,
            put: false,
        };
        cursor.settle(job);
        Ok(cursor)
    }

    /// The item at which the cursor stands; `None` exactly at the end of the list. It takes no memory.
    pub fn item(&self, job: &Job) -> Option<Item>
        requires { IsCursor job.now self.now }
        ensures { IsFirst job.now (left job.now self.now) result }
    {
        job.facts();
        let top = self.innermost()?;
        let Some(PlanItem::Eval(occ)) = next_at(job, top) else {
            unreachable!();
        };
        if self.put {
            Some(Item::Put {
                key: put_key(job, top, occ),
            })
        } else {
            Some(Item::Eval {
                node: NodeId(top.node),
                occ,
            })
        }
    }

    /// The innermost visit under way.
    fn innermost(&self) -> Option<Frame>
        ensures { MatchOption result (self.now.frames ≡ [])
            (λ top. self.now.frames ≡ take (length self.now.frames - 1) self.now.frames ++ top ∷ []) }
    {
        self.frames.last().copied()
    }

    /// Goes one item further. It takes no memory.
    pub fn step(&mut self, job: &Job)
        requires cursor { IsCursor job.now self.old }
        requires some_left { 0 < length (left job.now self.old) }
        ensures cursor { IsCursor job.now self.new }
        ensures region { self.new.region ≡ self.old.region }
        ensures left { left job.now self.new ≡ drop 1 (left job.now self.old) }
    {
        job.facts();
        let top = self.frames.take_last();
        let Some(PlanItem::Eval(occ)) = next_at(job, top) else {
            unreachable!();
        };
        if !self.put && is_shared(job, top, occ) {
            self.frames.push_reserved(top);
            self.put = true;
        } else {
            self.frames.push_reserved(top.behind());
            self.put = false;
            self.settle(job);
        }
    }

    /// Goes to the next evaluation, or to the end.
    fn settle(&mut self, job: &Job)
        requires inside { IsInside job.now self.old }
        requires evaluated { self.old.put ≡ false }
        ensures cursor { IsCursor job.now self.new }
        ensures region { self.new.region ≡ self.old.region }
        ensures put { self.new.put ≡ false }
        ensures left { left_of job.now self.new.frames ≡ left_of job.now self.old.frames }
    {
        while self.advance(job) {}
    }

    /// One move: over the end of a visit, or over the visit of a child, or into it where the child is of the region. `false` where
    /// an evaluation is next or nothing is left.
    fn advance(&mut self, job: &Job) -> bool
        requires { IsInside job.now self.old }
        ensures moved { result ≡ true → IsMove job.now self.old self.new }
        ensures stays { result ≡ false → self.new ≡ self.old }
        ensures ready { result ≡ false → IsReady job.now self.old.frames }
    {
        job.facts();
        if self.frames.is_empty() {
            return false;
        }
        let top = self.frames.take_last();
        match next_at(job, top) {
            Some(PlanItem::Eval(_)) => {
                self.frames.push_reserved(top);
                false
            }
            Some(PlanItem::Visit { occ, visit }) => {
                self.visit(job, top, occ, visit);
                true
            }
            Some(PlanItem::Leave { .. }) => {
                self.leave(job, top);
                true
            }
            None => true,
        }
    }

    /// Goes over the visit of a child, and into it where the child is of the region.
    fn visit(&mut self, job: &Job, top: Frame, occ: u16, visit: u16)
        requires inside { IsInside job.now (with_top self.old top) }
        requires few { top.place < 2 ^ 64 - 1 }
        requires next { slice_get (sequence_at job.now.flat job.now.seqs top.node) top.place ≡ Some (Visit occ visit) }
        ensures { IsMove job.now (with_top self.old top) self.new }
    {
        job.facts();
        self.frames.push_reserved(top.behind());
        let child = job.trees().flat.child(NodeId(top.node), occ as u32).0;
        if region_at(job, child) == self.region {
            let place = start_of(sequence(job, child), visit);
            self.frames.push_reserved(Frame { node: child, place });
        }
    }

    /// Ends a visit; the outermost one goes on with the next visit of its node.
    fn leave(&mut self, job: &Job, top: Frame)
        requires inside { IsInside job.now (with_top self.old top) }
        requires few { top.place < 2 ^ 64 - 1 }
        requires next { (w : ℕ) × (slice_get (sequence_at job.now.flat job.now.seqs top.node) top.place ≡ Some (Leave w)) }
        ensures { IsMove job.now (with_top self.old top) self.new }
    {
        job.facts();
        if self.frames.is_empty() {
            self.frames.push_reserved(top.behind());
        }
    }
}
