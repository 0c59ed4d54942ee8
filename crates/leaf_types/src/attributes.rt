//! Types of attributes.
ghost use Rattle.std.specs.Prelude.{◌≡◌, ℕ, None, Some, if◌then◌else◌, IfOk, OnOk};
ghost use Rattle.symbol_attributes.specs.Facts.{is_same_key};
ghost use Rattle.leaf_types.specs.Tables.{type_of_attribute, OfSome, HasMore, IsTableOf};
ghost use Rattle.leaf_types.specs.Entries.{GivesAttribute};

use lido_base::{Memory, ValueType};
use rule_tables::SymbolRow;
use std::alloc::Global;
use std::collections::HashMap;

/// Types of attributes, by symbol and attribute.
#[derive(Drop)]
pub struct AttributeTypes {
    types: HashMap<(u32, u32), ValueType>,
}

impl AttributeTypes {
    /// No types. It takes no memory.
    #[tactic(auto, unfolding(crate::specs::Tables::type_of_attribute))]
    pub(crate) fn new(alloc: Global) -> AttributeTypes
        ensures { (k : ℕ × ℕ) → type_of_attribute result k ≡ None }
    {
        AttributeTypes {
            types: HashMap::new(alloc),
        }
    }

    /// The type of the attribute of the symbol, if it has one.
    #[tactic(auto, unfolding(crate::specs::Tables::type_of_attribute))]
    pub fn find(&self, symbol: u32, attribute: u32) -> Option<ValueType>
        ensures { result ≡ type_of_attribute self.now (symbol, attribute) }
    {
        self.types.get(&(symbol, attribute)).copied()
    }

    /// Gives the attribute of the symbol this type.
    #[tactic(auto, unfolding(crate::specs::Tables::type_of_attribute))]
    pub(crate) fn set(&mut self, symbol: u32, attribute: u32, ty: ValueType) -> Result<(), Memory>
        ensures { OnOk result ((k : ℕ × ℕ) → type_of_attribute self.new k
            ≡ (if is_same_key (symbol, attribute) k then Some ty else type_of_attribute self.old k)) }
    {
        self.types.insert((symbol, attribute), ty)?;
        Ok(())
    }

    /// Adds the types of a row's attributes.
    fn set_row(&mut self, row: &SymbolRow) -> Result<(), Memory>
        ensures { OnOk result (HasMore (GivesAttribute row.now) (type_of_attribute self.old) (type_of_attribute self.new)) }
    {
        for attr in row.attrs.as_slice() {
            self.set(row.name.0, attr.name.0, attr.ty)?;
        }
        Ok(())
    }

    /// The types of all attributes in these rows.
    pub(crate) fn of(alloc: Global, rows: &[SymbolRow]) -> Result<AttributeTypes, Memory>
        ensures { IfOk result (λ types. IsTableOf (OfSome GivesAttribute rows.now) (type_of_attribute types)) }
    {
        let mut types = AttributeTypes::new(alloc);
        for row in rows {
            types.set_row(row)?;
        }
        Ok(types)
    }
}
