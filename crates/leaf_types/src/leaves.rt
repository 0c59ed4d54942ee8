//! Types of what names mean: attributes, terminals and chains.
ghost use Rattle.std.specs.Prelude.{◌≡◌, IfOk};
ghost use Rattle.lido_base.specs.Environment.{Environment};
ghost use Rattle.lido_base.specs.Faults.{HasNone};
ghost use Rattle.lido_symbols.specs.FromText.{IsFromText};
ghost use Rattle.table_faults.specs.Faults.{table_faults};
ghost use Rattle.rule_tables.specs.TablesOf.{AreTablesOf};
ghost use Rattle.leaf_types.specs.Types.{attribute_type, terminal_type, chain_type, is_uneven, AreTypesOf};

use crate::attributes::AttributeTypes;
use crate::heirs::Heirs;
use crate::names::NameTypes;
use crate::uneven::uneven_attributes;
use lido_base::{Memory, StrId, Strings, ValueType};
use lido_syntax::Spec;
use rule_tables::Tables;
use std::alloc::Global;

/// The types of a specification's attributes, terminals and chains, by name.
#[derive(Drop)]
pub struct LeafTypes<'a> {
    pub spec: &'a Spec,
    attributes: AttributeTypes,
    terminals: NameTypes,
    chains: NameTypes,
    /// The attributes of classes that have another type on a nonterminal that inherits the class.
    uneven: AttributeTypes,
}

impl<'a> LeafTypes<'a> {
    /// The types of a specification that was read from a text and has no fault of the tables, by its tables. An `Err` is want of
    /// memory.
    pub fn of(alloc: Global, tables: &'a Tables, strings: &Strings) -> Result<LeafTypes<'a>, Memory>
        requires tables { (env : Environment) × AreTablesOf env tables.now }
        requires text { IsFromText tables.now.spec }
        requires faults { (texts : Environment) × HasNone (table_faults tables.now.spec texts) }
        ensures of_spec { IfOk result (λ types. types.spec.now ≡ tables.now.spec) }
        ensures types { IfOk result (AreTypesOf tables.now.spec) }
    {
        let rows = tables.symbols.as_slice();
        let attributes = AttributeTypes::of(alloc, rows)?;
        let heirs = Heirs::of(alloc, &tables.spec, strings)?;
        let uneven = uneven_attributes(alloc, &attributes, &heirs, rows)?;
        let terminals = NameTypes::of_terminals(alloc, rows)?;
        let chains = NameTypes::of_chains(alloc, tables.spec.chains.as_slice())?;
        Ok(LeafTypes {
            spec: &tables.spec,
            attributes,
            terminals,
            chains,
            uneven,
        })
    }

    /// The type of a symbol's attribute, if it has it.
    #[tactic(auto, unfolding(crate::specs::Types::attribute_type))]
    pub fn attribute(&self, symbol: StrId, attribute: StrId) -> Option<ValueType>
        ensures { result ≡ attribute_type self.now symbol.0 attribute.0 }
    {
        self.attributes.find(symbol.0, attribute.0)
    }

    /// The type of a terminal, if the symbol is one.
    #[tactic(auto, unfolding(crate::specs::Types::terminal_type))]
    pub fn terminal(&self, symbol: StrId) -> Option<ValueType>
        ensures { result ≡ terminal_type self.now symbol.0 }
    {
        self.terminals.find(symbol.0)
    }

    /// The type of a chain, if it is one.
    #[tactic(auto, unfolding(crate::specs::Types::chain_type))]
    pub fn chain(&self, chain: StrId) -> Option<ValueType>
        ensures { result ≡ chain_type self.now chain.0 }
    {
        self.chains.find(chain.0)
    }

    /// Whether the attribute of a class has another type on a nonterminal that inherits the class.
    #[tactic(auto, unfolding(crate::specs::Types::is_uneven))]
    pub fn is_uneven(&self, class: StrId, attribute: StrId) -> bool
        ensures { result ≡ is_uneven self.now class.0 attribute.0 }
    {
        self.uneven.find(class.0, attribute.0).is_some()
    }
}
