//! The index of a rule's computations by their goals.
ghost use Rattle.std.specs.Prelude.{◌≡◌, None, Some, MatchOption, IfOk, OnOk, Contains, if◌then◌else◌};
ghost use Rattle.flat_grammar.specs.declared.flat.Occ.{Occ as Occurrence};
ghost use Rattle.flat_grammar.specs.WellFormed.{is_same_occ};
ghost use Rattle.flat_grammar.specs.SoundPlan.{goals_of};
ghost use Rattle.sequence_checker.specs.Goals.{goal_place, IsIndexOf};

use flat_grammar::{FlatComp, FlatRule, Occ};
use lido_base::Memory;
use std::alloc::Global;
use std::collections::HashMap;

/// The places of a rule's computations, by their goals.
#[derive(Drop)]
pub struct Goals {
    places: HashMap<(u16, u16), usize>,
}

impl Goals {
    /// The index without entries.
    #[tactic(auto, unfolding(crate::specs::Goals::goal_place))]
    fn new(alloc: Global) -> Goals
        ensures { (o : Occurrence) → goal_place result o ≡ None }
    {
        Goals {
            places: HashMap::new(alloc),
        }
    }

    /// Notes the place of a goal.
    #[tactic(auto, unfolding(crate::specs::Goals::goal_place))]
    fn note(&mut self, goal: Occ, place: usize) -> Result<(), Memory>
        ensures { OnOk result ((o : Occurrence)
            → goal_place self.new o ≡ (if is_same_occ goal o then Some place else goal_place self.old o)) }
    {
        self.places.insert((goal.occ, goal.attr.0), place)?;
        Ok(())
    }

    /// The index of a rule.
    pub fn of(alloc: Global, rule: &FlatRule) -> Result<Goals, Memory>
        ensures { IfOk result (IsIndexOf rule.now.comps) }
    {
        let mut goals = Goals::new(alloc);
        for (place, comp) in rule.comps.as_slice().iter().enumerate() {
            goals.note(comp.goal, place)?;
        }
        Ok(goals)
    }

    /// The place of a goal.
    #[tactic(auto, unfolding(crate::specs::Goals::goal_place))]
    fn place(&self, goal: Occ) -> Option<usize>
        ensures { result ≡ goal_place self.now goal }
    {
        self.places.get(&(goal.occ, goal.attr.0)).copied()
    }

    /// The computation of a goal of the rule.
    pub fn computation<'a>(&self, rule: &'a FlatRule, goal: Occ) -> Option<&'a FlatComp>
        requires { IsIndexOf rule.now.comps self.now }
        ensures { MatchOption result (¬ Contains (goals_of rule.now) goal) (λ c. Contains rule.now.comps c.now × (c.now.goal ≡ goal)) }
    {
        let place = self.place(goal)?;
        rule.comps.as_slice().get(place)
    }
}
