//! The first places of names.
ghost use Rattle.std.specs.Prelude.{◌≡◌, ℕ, None, Some, OnOk, IfOk, if◌then◌else◌, nat_eq};
ghost use Rattle.lido_syntax.specs.declared.spec.Name.{Name as NameOf};
ghost use Rattle.lido_syntax.specs.Production.{name_of};
ghost use Rattle.kind_clashes.specs.Firsts.{first_of, AreFirsts, HasNoted, IsAt, IsBehind};
ghost use Rattle.kind_clashes.specs.Least.{IsFirst, Among, earlier_of};

use crate::least::earlier;
use lido_base::{Memory, StrId};
use lido_syntax::Name;
use std::alloc::Global;
use std::collections::HashMap;

/// Of each name that was noted the least place.
#[derive(Drop)]
pub struct Firsts {
    pub places: HashMap<u32, u32>,
}

impl Firsts {
    /// The first places of no names. It takes no memory.
    #[tactic(auto, unfolding(crate::specs::Firsts::first_of))]
    pub fn new(alloc: Global) -> Firsts
        ensures { (id : ℕ) → first_of result id ≡ None }
    {
        Firsts {
            places: HashMap::new(alloc),
        }
    }

    /// The least place of the name, if it was noted.
    #[tactic(auto, unfolding(crate::specs::Firsts::first_of))]
    pub fn first(&self, id: StrId) -> Option<u32>
        ensures { result ≡ first_of self.now id.0 }
    {
        self.places.get(&id.0).copied()
    }

    #[tactic(auto, unfolding(crate::specs::Firsts::first_of))]
    fn put(&mut self, id: StrId, at: u32) -> Result<(), Memory>
        ensures { OnOk result ((other : ℕ)
            → first_of self.new other ≡ (if nat_eq id.0 other then Some at else first_of self.old other)) }
    {
        self.places.insert(id.0, at)?;
        Ok(())
    }

    /// Notes the name at its place.
    pub fn note(&mut self, name: Name) -> Result<(), Memory>
        ensures { OnOk result (HasNoted (IsAt name) self.old self.new) }
    {
        let at = match self.first(name.id) {
            Some(first) => first.min(name.at),
            None => name.at,
        };
        self.put(name.id, at)
    }
}

/// The first places of these names.
pub fn firsts_of(alloc: Global, names: &[Name]) -> Result<Firsts, Memory>
    ensures { IfOk result (AreFirsts (λ id. Among (λ (x : NameOf). IsAt x id) names.now)) }
{
    let mut firsts = Firsts::new(alloc);
    for name in names {
        firsts.note(*name)?;
    }
    Ok(firsts)
}

/// The name's place, if the name was noted at an earlier one.
pub fn if_behind(firsts: &Firsts, name: Name) -> Option<u32>
    ensures { IsFirst (λ at. IsBehind firsts.now name × (at ≡ name.at)) result }
{
    match firsts.first(name.id) {
        Some(first) if first < name.at => Some(name.at),
        _ => None,
    }
}

/// The least place of a name that was noted at an earlier one.
pub fn least_behind(firsts: &Firsts, names: &[Name]) -> Option<u32>
    ensures { IsFirst (Among (λ (x : NameOf) at. IsBehind firsts.now x × (at ≡ x.at)) names.now) result }
{
    let mut least = None;
    for name in names {
        least = earlier(least, if_behind(firsts, *name));
    }
    least
}
