//! Sets of names.
ghost use Rattle.std.specs.Prelude.{◌≡◌, ◌||◌, ℕ, IsTrue, not, nat_eq, false, map, Contains, OnOk};
ghost use Rattle.lido_syntax.specs.declared.spec.Name.{Name as NameOf};
ghost use Rattle.lido_syntax.specs.Production.{name_of};
ghost use Rattle.kind_clashes.specs.Least.{IsFirst, Among};
ghost use Rattle.kind_clashes.specs.Names.{has, HasMore};

use crate::least::earlier;
use lido_base::{Memory, StrId};
use lido_syntax::Name;
use std::alloc::Global;
use std::collections::HashSet;

/// A set of names, by the ids of their texts.
#[derive(Drop)]
pub struct Names {
    pub ids: HashSet<u32>,
}

impl Names {
    /// The set without names. It takes no memory.
    #[tactic(auto, unfolding(crate::specs::Names::has))]
    pub fn new(alloc: Global) -> Names
        ensures { (id : ℕ) → has result id ≡ false }
    {
        Names {
            ids: HashSet::new(alloc),
        }
    }

    /// Whether the name is in the set.
    #[tactic(auto, unfolding(crate::specs::Names::has))]
    pub fn has(&self, id: StrId) -> bool
        ensures { result ≡ has self.now id.0 }
    {
        self.ids.contains(&id.0)
    }

    /// Adds a name.
    #[tactic(auto, unfolding(crate::specs::Names::has))]
    pub fn add(&mut self, id: StrId) -> Result<(), Memory>
        ensures { OnOk result ((other : ℕ) → has self.new other ≡ (nat_eq id.0 other || has self.old other)) }
    {
        self.ids.insert(id.0)?;
        Ok(())
    }

    /// Adds names.
    pub fn add_all(&mut self, names: &[Name]) -> Result<(), Memory>
        ensures { OnOk result (HasMore (λ id. Contains (map name_of names.now) id) self.old self.new) }
    {
        for name in names {
            self.add(name.id)?;
        }
        Ok(())
    }
}

/// The name's place, if the name is in the set.
pub fn if_in(names: &Names, name: Name) -> Option<u32>
    ensures { IsFirst (λ at. IsTrue (has names.now (name_of name)) × (at ≡ name.at)) result }
{
    if names.has(name.id) {
        Some(name.at)
    } else {
        None
    }
}

/// The name's place, if the name isn't in the set.
pub fn if_not_in(names: &Names, name: Name) -> Option<u32>
    ensures { IsFirst (λ at. ¬ IsTrue (has names.now (name_of name)) × (at ≡ name.at)) result }
{
    if names.has(name.id) {
        None
    } else {
        Some(name.at)
    }
}

/// The least place of a name of the set.
pub fn least_in(names: &Names, among: &[Name]) -> Option<u32>
    ensures { IsFirst (Among (λ (x : NameOf) at. IsTrue (has names.now (name_of x)) × (at ≡ x.at)) among.now) result }
{
    let mut least = None;
    for name in among {
        least = earlier(least, if_in(names, *name));
    }
    least
}

/// The least place of a name that isn't in the set.
pub fn least_not_in(names: &Names, among: &[Name]) -> Option<u32>
    ensures { IsFirst (Among (λ (x : NameOf) at. ¬ IsTrue (has names.now (name_of x)) × (at ≡ x.at)) among.now) result }
{
    let mut least = None;
    for name in among {
        least = earlier(least, if_not_in(names, *name));
    }
    least
}
