//! How far a rule's sequence has come.
ghost use Rattle.std.specs.Prelude.{◌≡◌, ◌↔◌, ◌⊎◌, ◌++◌, ◌∷◌, ◌^◌, ◌<◌, ◌+◌, [], ℕ, All, Contains, length, replicate, IsTrue, IfOk, OnOk, IsBitSet, slice_index, slice_set, suc};
ghost use Rattle.lido_base.specs.declared.ids.AttrId.{AttrId as Attribute};
ghost use Rattle.flat_grammar.specs.Construction.{IsChosen};
ghost use Rattle.flat_grammar.specs.Partition.{AreAllVisits};
ghost use Rattle.visit_sequences.specs.Steps.{item_occurrence, Adds, Evaluates, Follows, HandsOn, Grows, HasBit, HasBitsOf, IsSameBut, Passes, PassesIn, visits_there};

use crate::bits::{members, with_small};
use crate::rows::visits_at;
use flat_grammar::{Bits, Flat, FlatRule, Occ, Parts, PlanItem, VisitClass};
use lido_base::{AttrId, List, Memory};
use std::alloc::{AllocError, Global};

/// The items of a rule's sequence so far, and what they gave.
#[derive(Drop)]
pub struct Progress {
    pub items: Vec<PlanItem>,
    /// For each occurrence the attributes that the items evaluate, by their numbers.
    pub evaluated: Vec<Bits>,
    /// For each occurrence the attributes that have their values.
    pub at_hand: Vec<Bits>,
    /// For each child how many of its visits are among the items.
    pub made: Vec<usize>,
    /// The visit of the left side that goes on, from 1.
    pub segment: usize,
}

/// So many empty sets.
pub fn empty_sets(alloc: Global, count: usize) -> Result<Vec<Bits>, AllocError>
    ensures { IfOk result (λ sets. sets.items ≡ replicate count 0) }
{
    vec![in alloc; Bits::empty(); count]
}

/// So many zeros.
pub fn zeros(alloc: Global, count: usize) -> Result<Vec<usize>, AllocError>
    ensures { IfOk result (λ made. made.items ≡ replicate count 0) }
{
    vec![in alloc; 0usize; count]
}

/// Adds to the set of an occurrence, if there is one.
fn add(sets: &mut Vec<Bits>, k: usize, more: Bits)
    ensures each { length sets.new.items ≡ length sets.old.items }
    ensures added { Adds sets.old.items sets.new.items k more }
{
    if let Some(set) = sets.get_mut(k) {
        *set = set.union(more);
    }
}

/// What is inherited in this visit.
pub fn inherited_in<'a>(row: &'a [VisitClass], visit: usize) -> &'a [AttrId]
    ensures { (a : Attribute) → Contains result.now a ↔ PassesIn (λ c. c.inherited) row.now visit a }
{
    if visit == 0 {
        return &[];
    }
    match row.get(visit - 1) {
        Some(class) => class.inherited.as_slice(),
        None => &[],
    }
}

/// What is synthesized in this visit.
pub fn synthesized_in<'a>(row: &'a [VisitClass], visit: usize) -> &'a [AttrId]
    ensures { (a : Attribute) → Contains result.now a ↔ PassesIn (λ c. c.synthesized) row.now visit a }
{
    if visit == 0 {
        return &[];
    }
    match row.get(visit - 1) {
        Some(class) => class.synthesized.as_slice(),
        None => &[],
    }
}

/// What is inherited in this visit, by numbers.
fn inherited(row: &[VisitClass], visit: usize) -> Bits
    ensures { HasBitsOf (λ c. c.inherited) row.now visit result }
{
    members(inherited_in(row, visit))
}

/// What is synthesized in this visit, by numbers.
fn synthesized(row: &[VisitClass], visit: usize) -> Bits
    ensures { HasBitsOf (λ c. c.synthesized) row.now visit result }
{
    members(synthesized_in(row, visit))
}

impl Progress {
    /// The progress before the first item.
    pub fn start(
        alloc: Global,
        flat: &Flat,
        parts: &Parts,
        rule: &FlatRule,
    ) -> Result<Progress, Memory>
        requires visits { AreAllVisits flat.now.symbols flat.now.rules parts.now.visits }
        requires rule { Contains flat.now.rules rule.now }
        ensures none { IfOk result (λ progress. progress.items.items ≡ []) }
        ensures follows { IfOk result (Follows parts.now.visits rule.now) }
    {
        let count = rule.right.len() + 1;
        let mut at_hand = empty_sets(alloc, count)?;
        add(
            &mut at_hand,
            0,
            inherited(visits_at(parts.visits.as_slice(), rule, 0), 1),
        );
        Ok(Progress {
            items: Vec::new(alloc),
            evaluated: empty_sets(alloc, count)?,
            at_hand,
            made: zeros(alloc, count)?,
            segment: 1,
        })
    }

    /// Whether the items evaluate it.
    pub fn is_evaluated(&self, o: Occ) -> bool
        ensures { IsTrue result ↔ HasBit self.now.evaluated.items o }
    {
        match self.evaluated.get(o.occ as usize) {
            Some(set) => set.has(o.attr.0 as usize),
            None => false,
        }
    }

    /// Whether it has its value.
    pub fn is_at_hand(&self, o: Occ) -> bool
        ensures { IsTrue result ↔ HasBit self.now.at_hand.items o }
    {
        match self.at_hand.get(o.occ as usize) {
            Some(set) => set.has(o.attr.0 as usize),
            None => false,
        }
    }

    /// The attributes of an occurrence that have their values.
    pub fn at_hand_at(&self, occ: u16) -> Bits
        ensures { result ≡ slice_index self.now.at_hand.items occ }
    {
        self.at_hand
            .get(occ as usize)
            .copied()
            .unwrap_or(Bits::empty())
    }

    /// Whether the items evaluate all these attributes of an occurrence.
    pub fn has_all(&self, occ: u16, attrs: &[AttrId]) -> bool
        ensures { IsTrue result ↔ All (λ (a : Attribute). HasBit self.now.evaluated.items (record { occ = occ; attr = a })) attrs.now }
    {
        for attr in attrs {
            if !self.is_evaluated(Occ { occ, attr: *attr }) {
                return false;
            }
        }
        true
    }

    /// How many visits of the child are among the items.
    pub fn visits_made(&self, occ: u16) -> usize
        ensures { result ≡ slice_index self.now.made.items occ }
    {
        self.made.get(occ as usize).copied().unwrap_or(0)
    }

    /// A goal is evaluated.
    fn evaluate(&mut self, goal: Occ)
        ensures items { self.new.items ≡ self.old.items }
        ensures each { (length self.new.evaluated.items ≡ length self.old.evaluated.items)
            × (length self.new.at_hand.items ≡ length self.old.at_hand.items) }
        ensures rest { (self.new.made ≡ self.old.made) × (self.new.segment ≡ self.old.segment) }
        ensures evaluated { Evaluates self.old.evaluated.items self.new.evaluated.items goal }
        ensures at_hand { Evaluates self.old.at_hand.items self.new.at_hand.items goal }
    {
        let set = with_small(Bits::empty(), goal.attr.0 as usize);
        add(&mut self.evaluated, goal.occ as usize, set);
        add(&mut self.at_hand, goal.occ as usize, set);
    }

    /// Notes how many visits of a child were made.
    fn note(&mut self, occ: u16, visit: usize)
        ensures made { self.new.made.items ≡ slice_set self.old.made.items occ visit }
        ensures same { (self.new.items ≡ self.old.items) × (self.new.evaluated ≡ self.old.evaluated)
            × (self.new.at_hand ≡ self.old.at_hand) × (self.new.segment ≡ self.old.segment) }
    {
        if let Some(made) = self.made.get_mut(occ as usize) {
            *made = visit;
        }
    }

    /// A visit of a child gives what it synthesizes.
    fn visit(&mut self, visits: &[List<VisitClass>], rule: &FlatRule, occ: u16, visit: u16)
        ensures same { (self.new.items ≡ self.old.items) × (self.new.evaluated ≡ self.old.evaluated)
            × (self.new.segment ≡ self.old.segment) }
        ensures each { length self.new.at_hand.items ≡ length self.old.at_hand.items }
        ensures made { self.new.made.items ≡ slice_set self.old.made.items occ visit }
        ensures at_hand { Passes
            (λ c. c.synthesized) (visits_there visits.now rule.now occ) visit self.old.at_hand.items self.new.at_hand.items occ }
    {
        self.note(occ, visit as usize);
        let more = synthesized(visits_at(visits, rule, occ), visit as usize);
        add(&mut self.at_hand, occ as usize, more);
    }

    /// The end of a visit: the next one has what the left side inherits in it.
    fn leave(&mut self, visits: &[List<VisitClass>], rule: &FlatRule, visit: u16)
        ensures same { (self.new.items ≡ self.old.items) × (self.new.evaluated ≡ self.old.evaluated) × (self.new.made ≡ self.old.made) }
        ensures each { length self.new.at_hand.items ≡ length self.old.at_hand.items }
        ensures segment { self.new.segment ≡ visit + 1 }
        ensures at_hand { Passes
            (λ c. c.inherited) (visits_there visits.now rule.now 0) (visit + 1) self.old.at_hand.items self.new.at_hand.items 0 }
    {
        self.segment = visit as usize + 1;
        let more = inherited(visits_at(visits, rule, 0), visit as usize + 1);
        add(&mut self.at_hand, 0, more);
    }

    /// Takes the item that the construction chooses.
    pub fn take(
        &mut self,
        flat: &Flat,
        parts: &Parts,
        rule: &FlatRule,
        item: PlanItem,
    ) -> Result<(), Memory>
        requires visits { AreAllVisits flat.now.symbols flat.now.rules parts.now.visits }
        requires rule { Contains flat.now.rules rule.now }
        requires follows { Follows parts.now.visits rule.now self.old }
        requires chosen { IsChosen flat.now.symbols flat.now.rules parts.now.visits rule.now self.old.items.items item }
        ensures items { OnOk result (self.new.items.items ≡ self.old.items.items ++ item ∷ []) }
        ensures follows { OnOk result (Follows parts.now.visits rule.now self.new) }
        ensures grows { OnOk result (Grows self.old self.new (HandsOn parts.now.visits rule.now item)) }
        ensures others { OnOk result (IsSameBut self.old self.new (item_occurrence item)) }
    {
        self.items.push(item)?;
        let visits = parts.visits.as_slice();
        match item {
            PlanItem::Eval(goal) => {
                self.evaluate(goal);
                Ok(())
            }
            PlanItem::Visit { occ, visit } => {
                self.visit(visits, rule, occ, visit);
                Ok(())
            }
            PlanItem::Leave { visit } => {
                self.leave(visits, rule, visit);
                Ok(())
            }
        }
    }

    /// The items.
    pub fn into_items(self) -> Vec<PlanItem>
        ensures { result ≡ self.items }
    {
        let Progress { items, .. } = self;
        items
    }
}
