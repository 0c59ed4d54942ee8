//! Sets of attribute occurrences.
ghost use Rattle.std.specs.Prelude.{◌≡◌, ◌||◌, false, OnOk};
ghost use Rattle.flat_grammar.specs.declared.flat.Occ.{Occ as Occurrence};
ghost use Rattle.flat_grammar.specs.WellFormed.{is_same_occ};
ghost use Rattle.sequence_checker.specs.Sets.{has};

use flat_grammar::Occ;
use std::alloc::{AllocFailed, Global};
use std::collections::HashSet;

/// A set of attribute occurrences of a rule.
#[derive(Drop)]
pub struct Occurrences {
    pairs: HashSet<(u16, u16)>,
}

impl Occurrences {
    /// The set without members.
    #[tactic(auto, unfolding(crate::specs::Sets::has))]
    pub fn new(alloc: Global) -> Occurrences
        ensures { (o : Occurrence) → has result o ≡ false }
    {
        Occurrences {
            pairs: HashSet::new(alloc),
        }
    }

    /// Whether it is a member.
    #[tactic(auto, unfolding(crate::specs::Sets::has))]
    pub fn has(&self, o: Occ) -> bool
        ensures { result ≡ has self.now o }
    {
        self.pairs.contains(&(o.occ, o.attr.0))
    }

    /// Makes it a member.
    #[tactic(auto, unfolding(crate::specs::Sets::has))]
    pub fn add(&mut self, o: Occ) -> Result<(), AllocFailed<(u16, u16)>>
        ensures { OnOk result ((p : Occurrence) → has self.new p ≡ (is_same_occ o p || has self.old p)) }
    {
        self.pairs.insert((o.occ, o.attr.0))?;
        Ok(())
    }
}
