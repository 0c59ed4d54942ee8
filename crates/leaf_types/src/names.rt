//! Types of names.
ghost use Rattle.std.specs.Prelude.{◌≡◌, ℕ, nat_eq, None, Some, if◌then◌else◌, IfOk, OnOk};
ghost use Rattle.leaf_types.specs.Tables.{type_of_name, OfSome, HasMore, IsTableOf};
ghost use Rattle.leaf_types.specs.Entries.{GivesTerminal, GivesChain};

use lido_base::{Memory, ValueType};
use lido_syntax::Typed1;
use rule_tables::{SymbolClass, SymbolRow};
use std::alloc::Global;
use std::collections::HashMap;

/// Types of names, by the ids of their texts.
#[derive(Drop)]
pub struct NameTypes {
    types: HashMap<u32, ValueType>,
}

impl NameTypes {
    /// No types. It takes no memory.
    #[tactic(auto, unfolding(crate::specs::Tables::type_of_name))]
    fn new(alloc: Global) -> NameTypes
        ensures { (k : ℕ) → type_of_name result k ≡ None }
    {
        NameTypes {
            types: HashMap::new(alloc),
        }
    }

    /// The type of the name, if it has one.
    #[tactic(auto, unfolding(crate::specs::Tables::type_of_name))]
    pub fn find(&self, name: u32) -> Option<ValueType>
        ensures { result ≡ type_of_name self.now name }
    {
        self.types.get(&name).copied()
    }

    /// Gives the name this type.
    #[tactic(auto, unfolding(crate::specs::Tables::type_of_name))]
    fn set(&mut self, name: u32, ty: ValueType) -> Result<(), Memory>
        ensures { OnOk result ((k : ℕ) → type_of_name self.new k ≡ (if nat_eq name k then Some ty else type_of_name self.old k)) }
    {
        self.types.insert(name, ty)?;
        Ok(())
    }

    /// Adds the type of a row's symbol, if that is a terminal.
    fn set_terminal(&mut self, row: &SymbolRow) -> Result<(), Memory>
        ensures { OnOk result (HasMore (GivesTerminal row.now) (type_of_name self.old) (type_of_name self.new)) }
    {
        if let SymbolClass::Terminal(ty) = row.class {
            self.set(row.name.0, ty)?;
        }
        Ok(())
    }

    /// The types of the terminals in these rows.
    pub(crate) fn of_terminals(alloc: Global, rows: &[SymbolRow]) -> Result<NameTypes, Memory>
        ensures { IfOk result (λ types. IsTableOf (OfSome GivesTerminal rows.now) (type_of_name types)) }
    {
        let mut types = NameTypes::new(alloc);
        for row in rows {
            types.set_terminal(row)?;
        }
        Ok(types)
    }

    /// The types of these chains.
    pub(crate) fn of_chains(alloc: Global, chains: &[Typed1]) -> Result<NameTypes, Memory>
        ensures { IfOk result (λ types. IsTableOf (OfSome GivesChain chains.now) (type_of_name types)) }
    {
        let mut types = NameTypes::new(alloc);
        for chain in chains {
            types.set(chain.name.id.0, chain.ty)?;
        }
        Ok(types)
    }
}
