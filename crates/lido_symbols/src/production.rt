//! Productions, and the occurrences that names mean in them.
ghost use Rattle.std.specs.Prelude.{◌≡◌, ◌++◌, ◌∷◌, [], ◌+◌, ◌<◌, ◌^◌, ◌||◌, ℕ, nat_eq, map, length, IfOk, OnOk, if◌then◌else◌, option_to_list};
ghost use Rattle.std.specs.HashSet as bag;
ghost use Rattle.lido_base.specs.Environment.{Environment};
ghost use Rattle.lido_base.specs.Tree.{contains};
ghost use Rattle.lido_syntax.specs.Production.{symbols_of, right_of, production, occurrence, indexed, places_from, symbol_of};
ghost use Rattle.lido_syntax.specs.declared.spec.RuleItem.{RuleItem as Rule};
ghost use Rattle.lido_symbols.specs.Occurrences.{row_of, is_right_symbol, names_symbol, IsProductionOf, numbers};
ghost use Rattle.lido_symbols.specs.Uses.{is_coordinate_of_rule};

use crate::coordinates::is_part;
use lido_base::{Memory, StrId, Strings};
use lido_syntax::{Element, Name, RuleItem};
use std::alloc::Global;
use std::collections::{HashMap, HashSet};

/// Adds the symbol that the element names, unless it is a literal.
fn push_symbol(symbols: &mut Vec<StrId>, element: &Element) -> Result<(), Memory>
    ensures { OnOk result (numbers symbols.new.items ≡ numbers symbols.old.items ++ option_to_list (symbol_of element.now)) }
{
    if let Element::Symbol(name) = element {
        symbols.push(name.id)?;
    }
    Ok(())
}

/// The symbols of the right side, in order, without the literals.
pub fn right_symbols(alloc: Global, rule: &RuleItem) -> Result<Vec<StrId>, Memory>
    ensures { IfOk result (λ symbols. numbers symbols.items ≡ right_of rule.now) }
{
    let mut symbols = Vec::new(alloc);
    for element in rule.right.as_slice() {
        push_symbol(&mut symbols, element)?;
    }
    Ok(symbols)
}

/// The symbols of the occurrences that a computation of the rule can name: the left side, and those of the right side unless
/// the rule is a list.
fn named_symbols(alloc: Global, rule: &RuleItem) -> Result<Vec<StrId>, Memory>
    ensures { IfOk result (λ symbols. numbers symbols.items ≡ production rule.now) }
{
    let mut symbols = vec![in alloc; rule.left.id]?;
    if !rule.list {
        let right = right_symbols(alloc, rule)?;
        symbols.extend_from_slice(&right)?;
    }
    Ok(symbols)
}

/// Adds the symbol that the element names, unless it is a literal.
fn add_symbol(symbols: &mut HashSet<u32>, element: &Element) -> Result<(), Memory>
    ensures { OnOk result ((x : ℕ) → bag.contains nat_eq symbols.new x ≡ (names_symbol x element.now || bag.contains nat_eq symbols.old x)) }
{
    if let Element::Symbol(name) = element {
        symbols.insert(name.id.0)?;
    }
    Ok(())
}

/// The symbols of the right side.
fn right_set(alloc: Global, rule: &RuleItem) -> Result<HashSet<u32>, Memory>
    ensures { IfOk result (λ symbols. (x : ℕ) → bag.contains nat_eq symbols x ≡ contains x (right_of rule.now)) }
{
    let mut symbols = HashSet::new(alloc);
    for element in rule.right.as_slice() {
        add_symbol(&mut symbols, element)?;
    }
    Ok(symbols)
}

/// The symbols of a rule's two sides, and its occurrences by the names of their symbols.
#[derive(Drop)]
pub struct Production {
    pub list: bool,
    pub places: HashMap<u32, Vec<usize>>,
    pub left: StrId,
    pub right: HashSet<u32>,
}

impl Production {
    /// Notes an occurrence of a symbol.
    #[tactic(auto, unfolding(crate::specs::Occurrences::row_of))]
    fn note(&mut self, alloc: Global, symbol: StrId, k: usize) -> Result<(), Memory>
        ensures row { OnOk result ((x : ℕ) → row_of self.new x ≡ row_of self.old x ++ (if nat_eq x symbol.0 then k ∷ [] else [])) }
        ensures list { self.new.list ≡ self.old.list }
        ensures left { self.new.left ≡ self.old.left }
        ensures right { self.new.right ≡ self.old.right }
    {
        if let Some(row) = self.places.get_mut(&symbol.0) {
            row.push(k)?;
        } else {
            let row = vec![in alloc; k]?;
            self.places.insert(symbol.0, row)?;
        }
        Ok(())
    }

    /// The occurrences of a rule. The time is linear in its length.
    #[tactic(auto, unfolding(crate::specs::Occurrences::row_of, crate::specs::Occurrences::is_right_symbol))]
    pub fn of(alloc: Global, rule: &RuleItem) -> Result<Production, Memory>
        ensures { IfOk result (IsProductionOf rule.now) }
    {
        let symbols = named_symbols(alloc, rule)?;
        let mut found = Production {
            list: rule.list,
            places: HashMap::new(alloc),
            left: rule.left.id,
            right: right_set(alloc, rule)?,
        };
        for (k, symbol) in symbols.iter().enumerate() {
            found.note(alloc, *symbol, k)?;
        }
        Ok(found)
    }

    /// Whether the symbol stands on the right side.
    #[tactic(auto, unfolding(crate::specs::Occurrences::is_right_symbol))]
    pub fn is_right(&self, id: StrId) -> bool
        ensures { (r : Rule) → IsProductionOf r self.now → result ≡ contains id.0 (right_of r) }
    {
        self.right.contains(&id.0)
    }

    /// Whether the symbol stands in the production.
    pub fn has(&self, id: StrId) -> bool
        ensures { (r : Rule) → IsProductionOf r self.now → result ≡ contains id.0 (symbols_of r) }
    {
        id == self.left || self.is_right(id)
    }

    /// Whether a bare name of a computation of the rule is a coordinate: it is LINE or COL, has no index, and no symbol of the
    /// production has the name.
    pub fn is_coordinate(&self, strings: &Strings, name: Name, index: Option<i64>) -> bool
        ensures { (r : Rule) (env : Environment) → IsProductionOf r self.now → env.texts ≡ strings.now → result ≡ is_coordinate_of_rule env r name index }
    {
        index.is_none() && is_part(strings, name.id) && !self.has(name.id)
    }

    /// The occurrences of the symbol that a computation of the rule can name, from left to right.
    #[tactic(auto, unfolding(crate::specs::Occurrences::row_of))]
    pub fn row(&self, symbol: StrId) -> &[usize]
        ensures { result.now ≡ row_of self.now symbol.0 }
    {
        match self.places.get(&symbol.0) {
            Some(row) => row.as_slice(),
            None => &[],
        }
    }

    /// The occurrence that a name with this index means, if it means one: 0 is the left side, and the right side's count
    /// from 1. In a list rule no index means an occurrence.
    pub fn occurrence(&self, name: Name, index: Option<i64>) -> Option<usize>
        ensures { (r : Rule) → IsProductionOf r self.now → result ≡ occurrence r name index }
    {
        let row = self.row(name.id);
        match index {
            None => only(row),
            Some(_) if self.list => None,
            Some(index) => at(row, index),
        }
    }
}

/// The only number of a row.
fn only(row: &[usize]) -> Option<usize>
    ensures { result ≡ indexed None row.now }
{
    match row {
        [k] => Some(*k),
        _ => None,
    }
}

/// The number at a place of a row, which counts from 1.
fn at(row: &[usize], index: i64) -> Option<usize>
    ensures { result ≡ indexed (Some index) row.now }
{
    if index < 1 {
        return None;
    }
    row.get(index as usize - 1).copied()
}
