//! The types of the attributes that the flat grammar adds.
ghost use Rattle.std.specs.Prelude.{◌≡◌, ℕ, None, Some, nat_eq, map, filter_map, unwrap_or, if◌then◌else◌, OnOk, IfOk};
ghost use Rattle.flat_symbols.specs.Types.{type_in, set_type, constituents_type, chain_type, AreTypesOf};

use lido_base::{Memory, ValueType};
use lido_syntax::Typed1;
use rule_tables::{ExtraAttr, Slot};
use std::alloc::Global;
use std::collections::HashMap;

/// Types by numbers, or by the ids of names.
#[derive(Drop)]
pub struct Types {
    pub types: HashMap<u32, ValueType>,
}

/// The number and the type of an INCLUDING's set.
fn of_set(attr: &ExtraAttr) -> Option<(u32, ValueType)>
    ensures { result ≡ set_type attr.now }
{
    match attr.slot {
        Slot::Inc(set) => Some((set, attr.ty)),
        Slot::Written(_) | Slot::Con(_) | Slot::Front(_) | Slot::Behind(_) => None,
    }
}

/// The number and the type of a CONSTITUENTS.
fn of_gathered(attr: &ExtraAttr) -> Option<(u32, ValueType)>
    ensures { result ≡ constituents_type attr.now }
{
    match attr.slot {
        Slot::Con(number) => Some((number, attr.ty)),
        Slot::Written(_) | Slot::Inc(_) | Slot::Front(_) | Slot::Behind(_) => None,
    }
}

impl Types {
    /// No types. It takes no memory.
    #[tactic(auto, unfolding(crate::specs::Types::type_in))]
    fn new(alloc: Global) -> Types
        ensures { (n : ℕ) → type_in result n ≡ None }
    {
        Types {
            types: HashMap::new(alloc),
        }
    }

    /// Gives a number its type.
    #[tactic(auto, unfolding(crate::specs::Types::type_in))]
    fn set(&mut self, number: u32, ty: ValueType) -> Result<(), Memory>
        ensures { OnOk result ((n : ℕ) → type_in self.new n ≡ (if nat_eq number n then Some ty else type_in self.old n)) }
    {
        self.types.insert(number, ty)?;
        Ok(())
    }

    /// The type of a number, and `Void` where it has none.
    #[tactic(auto, unfolding(crate::specs::Types::type_in))]
    pub fn get(&self, number: u32) -> ValueType
        ensures { result ≡ unwrap_or (type_in self.now number) ValueType.Void }
    {
        self.types.get(&number).copied().unwrap_or(ValueType::Void)
    }

    /// The types of INCLUDINGs, by the numbers of their sets.
    pub fn of_includings(alloc: Global, attrs: &[ExtraAttr]) -> Result<Types, Memory>
        ensures { IfOk result (AreTypesOf (filter_map set_type attrs.now)) }
    {
        let mut types = Types::new(alloc);
        for attr in attrs {
            if let Some((set, ty)) = of_set(attr) {
                types.set(set, ty)?;
            }
        }
        Ok(types)
    }

    /// The types of CONSTITUENTS, by their numbers.
    pub fn of_constituents(alloc: Global, attrs: &[ExtraAttr]) -> Result<Types, Memory>
        ensures { IfOk result (AreTypesOf (filter_map constituents_type attrs.now)) }
    {
        let mut types = Types::new(alloc);
        for attr in attrs {
            if let Some((number, ty)) = of_gathered(attr) {
                types.set(number, ty)?;
            }
        }
        Ok(types)
    }

    /// The types of chains, by the ids of their names.
    pub fn of_chains(alloc: Global, chains: &[Typed1]) -> Result<Types, Memory>
        ensures { IfOk result (AreTypesOf (map chain_type chains.now)) }
    {
        let mut types = Types::new(alloc);
        for chain in chains {
            types.set(chain.name.id.0, chain.ty)?;
        }
        Ok(types)
    }
}
