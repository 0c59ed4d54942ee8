//! What is said of attributes, with the attributes of each symbol of which something is said.
ghost use Rattle.std.specs.Prelude.{◌≡◌, ◌++◌, ◌∷◌, [], ℕ, nat_eq, if◌then◌else◌, IfOk, OnOk, List as Sequence};
ghost use Rattle.kind_clashes.specs.Least.{Among};
ghost use Rattle.kind_clashes.specs.Names.{HasMore};
ghost use Rattle.symbol_attributes.specs.declared.facts.Said.{Said as Saying};
ghost use Rattle.symbol_attributes.specs.Facts.{row_of, IsTableOf, AreRowsOf, AreSaidTables, AreSaidOn};

use crate::facts::{FactTable, Said};
use kind_clashes::Names;
use lido_base::{Memory, StrId};
use std::alloc::Global;
use std::collections::HashMap;

/// Attributes by symbol.
#[derive(Drop)]
pub struct NamedRows {
    rows: HashMap<u32, Vec<u32>>,
}

impl NamedRows {
    /// No attributes. It takes no memory.
    #[tactic(auto, unfolding(crate::specs::Facts::row_of))]
    fn new(alloc: Global) -> NamedRows
        ensures { (s : ℕ) → row_of result s ≡ [] }
    {
        NamedRows {
            rows: HashMap::new(alloc),
        }
    }

    /// Adds an attribute of the symbol.
    #[tactic(auto, unfolding(crate::specs::Facts::row_of))]
    fn add(&mut self, alloc: Global, symbol: u32, attribute: u32) -> Result<(), Memory>
        ensures { OnOk result ((s : ℕ) → row_of self.new s ≡ row_of self.old s ++ (if nat_eq s symbol then attribute ∷ [] else [])) }
    {
        if let Some(row) = self.rows.get_mut(&symbol) {
            row.push(attribute)?;
        } else {
            let row = vec![in alloc; attribute]?;
            self.rows.insert(symbol, row)?;
        }
        Ok(())
    }

    /// The attributes of the symbol.
    #[tactic(auto, unfolding(crate::specs::Facts::row_of))]
    fn row(&self, symbol: u32) -> &[u32]
        ensures { result.now ≡ row_of self.now symbol }
    {
        match self.rows.get(&symbol) {
            Some(row) => row.as_slice(),
            None => &[],
        }
    }
}

/// What is said of attributes.
#[derive(Drop)]
pub struct SaidTables {
    pub facts: FactTable,
    /// The attributes of which something is said, each once.
    pub rows: NamedRows,
}

/// Adds the attribute of which this is said, unless something was said of it before.
fn add_new(alloc: Global, rows: &mut NamedRows, facts: &FactTable, said: Said) -> Result<(), Memory>
    ensures { OnOk result ((list : Sequence Saying) → IsTableOf list facts.now → AreRowsOf list rows.old
        → AreRowsOf (list ++ said ∷ []) rows.new) }
{
    if facts.find(said.symbol.0, said.attribute.0).is_some() {
        return Ok(());
    }
    rows.add(alloc, said.symbol.0, said.attribute.0)?;
    Ok(())
}

impl SaidTables {
    /// The tables of what is said.
    pub fn of(alloc: Global, list: &[Said]) -> Result<SaidTables, Memory>
        ensures { IfOk result (AreSaidTables list.now) }
    {
        let mut facts = FactTable::new(alloc);
        let mut rows = NamedRows::new(alloc);
        for said in list {
            add_new(alloc, &mut rows, &facts, *said)?;
            facts.note(*said)?;
        }
        Ok(SaidTables { facts, rows })
    }

    /// The attributes of any of these symbols of which something is said.
    pub fn attributes_on(&self, alloc: Global, symbols: &[u32]) -> Result<Names, Memory>
        ensures { IfOk result (λ set. (list : Sequence Saying) → AreRowsOf list self.now.rows → AreSaidOn list symbols.now set) }
    {
        let mut set = Names::new(alloc);
        for symbol in symbols {
            add_row(&mut set, self.rows.row(*symbol))?;
        }
        Ok(set)
    }
}

/// Adds the attributes of a row.
fn add_row(set: &mut Names, row: &[u32]) -> Result<(), Memory>
    ensures { OnOk result (HasMore (Among (λ (a : ℕ) b. a ≡ b) row.now) set.old set.new) }
{
    for attribute in row {
        set.add(StrId(*attribute))?;
    }
    Ok(())
}
