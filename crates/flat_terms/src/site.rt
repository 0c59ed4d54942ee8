//! A plain rule, and what the names in its computations stand for.
ghost use Rattle.std.specs.Prelude.{◌≡◌, ◌≤◌};
ghost use Rattle.lido_symbols.specs.Occurrences.{IsProductionOf};

use crate::sets::Sets;
use flat_copies::Ops;
use flat_grammar::{FlatExpr, FlatRule, Occ, symbol_at};
use flat_slots::{Slot, SlotTable};
use lido_base::{AttrId, StrId, Strings, SymId};
use lido_symbols::{Names, Production};
use lido_syntax::{Name, RuleItem};

/// What a plain rule is.
#[derive(Clone, Copy, Debug)]
pub enum Role {
    /// A written rule that is no list.
    Whole,
    /// That of a list, which leads to the cell.
    Listing,
    /// In a cell an element, and the next cell.
    Link,
    /// The end of a list.
    End,
}

/// A plain rule, and what the names in its computations stand for.
#[derive(Clone, Copy)]
pub struct Site<'a> {
    /// The texts of the specification's ids.
    pub strings: &'a Strings,
    /// The operations of all functions that the specification calls.
    pub ops: &'a Ops,
    /// The attributes of all symbols.
    pub slots: &'a SlotTable,
    /// The names of the chains that are declared.
    pub chains: &'a Names,
    /// The numbers of the sets of INCLUDINGs.
    pub sets: &'a Sets,
    /// The written rule.
    pub rule: &'a RuleItem,
    /// Its occurrences.
    pub production: &'a Production,
    /// The plain rule.
    pub plain: &'a FlatRule,
    pub role: Role,
    pub ghost of_rule: { IsProductionOf rule.now production.now },
}

/// The number, or the largest that fits where it is larger.
pub fn narrow(number: usize) -> u16
    ensures { number ≤ 65535 → result ≡ number }
{
    number.min(u16::MAX as usize) as u16
}

impl Site<'_> {
    ghost use Rattle.lido_base.specs.Tree.{contains};
    ghost use Rattle.lido_syntax.specs.Production.{symbols_of, occurrence as occurrence_in};
    ghost use Rattle.flat_slots.specs.Named.{slot_of};
    ghost use Rattle.flat_slots.specs.Slots.{slots_in};
    ghost use Rattle.rule_tables.specs.Slots.{Con};
    ghost use Rattle.flat_terms.specs.Scene.{Scene, occ as occ_at, get as get_at, seen as seen_at};
    ghost use Rattle.flat_terms.specs.Sites.{IsSiteOf, is_among};

    /// Whether the symbol stands in the production.
    pub fn has(&self, id: StrId) -> bool
        ensures { result ≡ contains id.0 (symbols_of self.now.rule.now) }
    {
        self.production.has(id)
    }

    /// The occurrence that a name with this index means, if it means one.
    pub fn occurrence(&self, name: Name, index: Option<i64>) -> Option<usize>
        ensures { result ≡ occurrence_in self.now.rule.now name index }
    {
        self.production.occurrence(name, index)
    }

    /// The number of an attribute at an occurrence.
    fn number(&self, k: u16, slot: Slot) -> usize
        ensures { (scene : Scene) → IsSiteOf scene self.now → result ≡ (occ_at scene k (slot_of slot)).attr.0 }
    {
        match symbol_at(self.plain, k) {
            Some(symbol) => self.slots.number(symbol, slot),
            None => 0,
        }
    }

    /// An attribute of an occurrence.
    pub fn occ(&self, k: u16, slot: Slot) -> Occ
        ensures { (scene : Scene) → IsSiteOf scene self.now → result ≡ occ_at scene k (slot_of slot) }
    {
        Occ {
            occ: k,
            attr: AttrId(narrow(self.number(k, slot))),
        }
    }

    /// The value of an attribute of an occurrence.
    pub fn get(&self, k: u16, slot: Slot) -> FlatExpr
        ensures { (scene : Scene) → IsSiteOf scene self.now → result ≡ get_at scene k (slot_of slot) }
    {
        FlatExpr::Read(self.occ(k, slot))
    }

    /// What the name stands for behind a place: an attribute, or what a chain has in front.
    pub fn seen(&self, name: StrId) -> Slot
        ensures { (scene : Scene) → IsSiteOf scene self.now → slot_of result ≡ seen_at scene name.0 }
    {
        if self.chains.has(name) {
            Slot::Front(name)
        } else {
            Slot::Written(name)
        }
    }

    /// Whether the symbol has the attribute.
    pub fn bears(&self, symbol: SymId, slot: Slot) -> bool
        ensures { result ≡ is_among (slot_of slot) (slots_in self.now.slots.now symbol.0) }
    {
        match self.slots.rows.as_slice().get(symbol.0 as usize) {
            Some(row) => row.number(slot) < row.len(),
            None => false,
        }
    }

    /// Whether the symbol has the attribute of the CONSTITUENTS of that number.
    pub fn has_con(&self, symbol: SymId, number: u32) -> bool
        ensures { result ≡ is_among (Con number) (slots_in self.now.slots.now symbol.0) }
    {
        self.bears(symbol, Slot::Con(number))
    }
}
