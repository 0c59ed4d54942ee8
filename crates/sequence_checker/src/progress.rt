//! How far a visit sequence has come: what is evaluated, what the visits gave, and how many were made.
ghost use Rattle.std.specs.Prelude.{◌≡◌, ◌+◌, ◌||◌, ◌^◌, ◌<◌, [], length, replicate, IfOk, OnOk, slice_index, slice_set};
ghost use Rattle.flat_grammar.specs.declared.flat.Occ.{Occ as Occurrence};
ghost use Rattle.sequence_checker.specs.Sets.{has, has_each, is_one_of};
ghost use Rattle.sequence_checker.specs.Steps.{Follows, Gave, GoesOn, is_at_hand};

use crate::set::Occurrences;
use crate::visits::class_at;
use flat_grammar::{FlatRule, Occ, PlanItem, VisitClass};
use lido_base::{AttrId, List, Memory};
use std::alloc::{AllocError, Global};

/// What the items of a sequence did so far.
#[derive(Drop)]
pub struct Progress {
    /// The goals that they evaluate.
    pub evaluated: Occurrences,
    /// What visits of the children synthesized, and what the left side inherits up to the present visit.
    pub given: Occurrences,
    /// For each occurrence how many visits of its symbol came to their end.
    pub made: Vec<u16>,
}

/// Makes these attributes at an occurrence members of the set.
fn add_all(set: &mut Occurrences, occ: u16, attrs: &[AttrId]) -> Result<(), Memory>
    ensures { OnOk result ((o : Occurrence) → has set.new o ≡ (has set.old o || is_one_of occ attrs.now o)) }
{
    for attr in attrs {
        set.add(Occ { occ, attr: *attr })?;
    }
    Ok(())
}

/// So many zeros.
fn zeros(alloc: Global, count: usize) -> Result<Vec<u16>, AllocError>
    ensures { IfOk result (λ made. made.items ≡ replicate count 0) }
{
    vec![in alloc; 0u16; count]
}

impl Progress {
    /// The progress before the first item.
    pub fn start(
        alloc: Global,
        visits: &[List<VisitClass>],
        rule: &FlatRule,
    ) -> Result<Progress, Memory>
        requires { length rule.now.right < 2 ^ 16 }
        ensures { IfOk result (Follows visits.now rule.now []) }
    {
        let mut progress = Progress {
            evaluated: Occurrences::new(alloc),
            given: Occurrences::new(alloc),
            made: zeros(alloc, rule.right.len() + 1)?,
        };
        progress.give(visits, rule, 0, 1)?;
        Ok(progress)
    }

    /// How many visits of the symbol at an occurrence came to their end.
    pub fn ended(&self, occ: u16) -> u16
        ensures { result ≡ slice_index self.now.made.items occ }
    {
        self.made.get(occ as usize).copied().unwrap_or(0)
    }

    /// Whether it has its value.
    pub fn is_at_hand(&self, o: Occ) -> bool
        ensures { result ≡ is_at_hand self.now o }
    {
        self.evaluated.has(o) || self.given.has(o)
    }

    /// Whether all these attributes of an occurrence are evaluated.
    pub fn has_all(&self, occ: u16, attrs: &[AttrId]) -> bool
        ensures { result ≡ has_each self.now.evaluated occ attrs.now }
    {
        attrs
            .iter()
            .all(|attr| self.evaluated.has(Occ { occ, attr: *attr }))
    }

    /// Notes that this visit of the symbol at an occurrence came to its end.
    fn note(&mut self, occ: u16, visit: u16)
        ensures made { self.new.made.items ≡ slice_set self.old.made.items occ visit }
        ensures same { (self.new.evaluated ≡ self.old.evaluated) × (self.new.given ≡ self.old.given) }
    {
        if let Some(made) = self.made.get_mut(occ as usize) {
            *made = visit;
        }
    }

    /// A visit gives what passes in it: to the left side what it inherits, of a child what it synthesizes.
    fn give(
        &mut self,
        visits: &[List<VisitClass>],
        rule: &FlatRule,
        occ: u16,
        visit: usize,
    ) -> Result<(), Memory>
        ensures same { (self.new.evaluated ≡ self.old.evaluated) × (self.new.made ≡ self.old.made) }
        ensures given { OnOk result (Gave visits.now rule.now occ visit self.old.given self.new.given) }
    {
        let Some(class) = class_at(visits, rule, occ, visit) else {
            return Ok(());
        };
        let passed = if occ == 0 {
            &class.inherited
        } else {
            &class.synthesized
        };
        add_all(&mut self.given, occ, passed.as_slice())
    }

    /// A child's visit: it gives what it synthesizes.
    fn visit(
        &mut self,
        visits: &[List<VisitClass>],
        rule: &FlatRule,
        occ: u16,
        visit: u16,
    ) -> Result<(), Memory>
        ensures evaluated { OnOk result (self.new.evaluated ≡ self.old.evaluated) }
        ensures given { OnOk result (Gave visits.now rule.now occ visit self.old.given self.new.given) }
        ensures made { OnOk result (self.new.made.items ≡ slice_set self.old.made.items occ visit) }
        ensures small { visit < 2 ^ 16 }
    {
        self.note(occ, visit);
        self.give(visits, rule, occ, visit as usize)
    }

    /// The end of a visit: the next one has what the left side inherits in it.
    fn leave(
        &mut self,
        visits: &[List<VisitClass>],
        rule: &FlatRule,
        visit: u16,
    ) -> Result<(), Memory>
        ensures evaluated { OnOk result (self.new.evaluated ≡ self.old.evaluated) }
        ensures given { OnOk result (Gave visits.now rule.now 0 (visit + 1) self.old.given self.new.given) }
        ensures made { OnOk result (self.new.made.items ≡ slice_set self.old.made.items 0 visit) }
        ensures small { visit < 2 ^ 16 }
    {
        self.note(0, visit);
        self.give(visits, rule, 0, visit as usize + 1)
    }

    /// Takes the next item, which all clauses allow.
    pub fn take(
        &mut self,
        visits: &[List<VisitClass>],
        rule: &FlatRule,
        item: PlanItem,
    ) -> Result<(), Memory>
        ensures { OnOk result (GoesOn visits.now rule.now item self.old self.new) }
    {
        match item {
            PlanItem::Eval(goal) => Ok(self.evaluated.add(goal)?),
            PlanItem::Visit { occ, visit } => self.visit(visits, rule, occ, visit),
            PlanItem::Leave { visit } => self.leave(visits, rule, visit),
        }
    }
}
