//! What is said of attributes, by symbol and by attribute.
ghost use Rattle.std.specs.Prelude.{◌≡◌, ℕ, None, Some, nat_eq, if◌then◌else◌, IfOk, OnOk};
ghost use Rattle.lido_syntax.specs.Production.{name_of};
ghost use Rattle.symbol_attributes.specs.Facts.{combined, added, joined as joined_facts, known, known_of, is_same_key, declared_facts, IsAttrTableOf};

use lido_base::{Kind, Memory, StrId, ValueType};
use lido_syntax::Decl;
use std::alloc::Global;
use std::collections::HashMap;

/// What is said of an attribute.
#[derive(Clone, Copy, Debug, PartialEq, Eq)]
pub struct Facts {
    /// The type that a declaration gives it.
    pub ty: Option<ValueType>,
    /// The kind that a declaration gives it.
    pub kind: Option<Kind>,
    /// The kind that a computation tells.
    pub told: Option<Kind>,
}

/// What is said at one place of an attribute of a symbol or class.
#[derive(Clone, Copy, Debug, PartialEq, Eq)]
pub struct Said {
    pub symbol: StrId,
    pub attribute: StrId,
    pub facts: Facts,
}

/// What the one says and, of what it doesn't say, the other.
fn combine(one: Facts, other: Facts) -> Facts
    ensures { result ≡ combined one other }
{
    Facts {
        ty: one.ty.or(other.ty),
        kind: one.kind.or(other.kind),
        told: one.told.or(other.told),
    }
}

/// Facts together with others, if there are some.
fn add(known: Option<Facts>, facts: Facts) -> Facts
    ensures { result ≡ added known facts }
{
    match known {
        Some(known) => combine(known, facts),
        None => facts,
    }
}

/// What both say, where either may say nothing.
pub fn joined(one: Option<Facts>, other: Option<Facts>) -> Option<Facts>
    ensures { result ≡ joined_facts one other }
{
    match other {
        Some(facts) => Some(add(one, facts)),
        None => one,
    }
}

/// What a declaration says.
pub fn facts_of(decl: Decl) -> Facts
    ensures { result ≡ declared_facts decl }
{
    Facts {
        ty: Some(decl.ty),
        kind: decl.kind,
        told: None,
    }
}

/// What is said, by symbol and attribute.
#[derive(Drop)]
pub struct FactTable {
    facts: HashMap<(u32, u32), Facts>,
}

impl FactTable {
    /// The table without entries. It takes no memory.
    #[tactic(auto, unfolding(crate::specs::Facts::known))]
    pub fn new(alloc: Global) -> FactTable
        ensures { (s a : ℕ) → known result s a ≡ None }
    {
        FactTable {
            facts: HashMap::new(alloc),
        }
    }

    /// What is said of the attribute of the symbol, if something is.
    #[tactic(auto, unfolding(crate::specs::Facts::known))]
    pub fn find(&self, symbol: u32, attribute: u32) -> Option<Facts>
        ensures { result ≡ known self.now symbol attribute }
    {
        self.facts.get(&(symbol, attribute)).copied()
    }

    /// Adds what is said.
    #[tactic(auto, unfolding(crate::specs::Facts::known))]
    pub fn note(&mut self, said: Said) -> Result<(), Memory>
        ensures { OnOk result ((s a : ℕ) → known self.new s a
            ≡ (if is_same_key (said.symbol.0, said.attribute.0) (s, a)
            then Some (added (known self.old said.symbol.0 said.attribute.0) said.facts) else known self.old s a)) }
    {
        let facts = add(self.find(said.symbol.0, said.attribute.0), said.facts);
        self.facts.insert((said.symbol.0, said.attribute.0), facts)?;
        Ok(())
    }
}

/// What declarations say of attributes of any symbol, by attribute.
#[derive(Drop)]
pub struct AttrTable {
    facts: HashMap<u32, Facts>,
}

impl AttrTable {
    /// The table without entries. It takes no memory.
    #[tactic(auto, unfolding(crate::specs::Facts::known_of))]
    fn new(alloc: Global) -> AttrTable
        ensures { (a : ℕ) → known_of result a ≡ None }
    {
        AttrTable {
            facts: HashMap::new(alloc),
        }
    }

    /// What is said of the attribute, if something is.
    #[tactic(auto, unfolding(crate::specs::Facts::known_of))]
    pub fn find(&self, attribute: u32) -> Option<Facts>
        ensures { result ≡ known_of self.now attribute }
    {
        self.facts.get(&attribute).copied()
    }

    /// Adds what the declaration says.
    #[tactic(auto, unfolding(crate::specs::Facts::known_of))]
    fn note(&mut self, decl: Decl) -> Result<(), Memory>
        ensures { OnOk result ((a : ℕ) → known_of self.new a
            ≡ (if nat_eq (name_of decl.attr) a
            then Some (added (known_of self.old (name_of decl.attr)) (declared_facts decl)) else known_of self.old a)) }
    {
        let facts = add(self.find(decl.attr.id.0), facts_of(decl));
        self.facts.insert(decl.attr.id.0, facts)?;
        Ok(())
    }

    /// The table of what these declarations say.
    pub fn of(alloc: Global, decls: &[Decl]) -> Result<AttrTable, Memory>
        ensures { IfOk result (IsAttrTableOf decls.now) }
    {
        let mut table = AttrTable::new(alloc);
        for decl in decls {
            table.note(*decl)?;
        }
        Ok(table)
    }
}
