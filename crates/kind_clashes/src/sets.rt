//! What the names of a specification are.
ghost use Rattle.std.specs.Prelude.{◌≡◌, ℕ, Some, Contains, IfOk, OnOk, IsTrue};
ghost use Rattle.lido_syntax.specs.declared.spec.Element.{Element as ElementOf};
ghost use Rattle.lido_syntax.specs.declared.spec.RuleItem.{RuleItem as Rule};
ghost use Rattle.lido_syntax.specs.declared.spec.SymbolItem.{SymbolItem as Item};
ghost use Rattle.lido_syntax.specs.declared.spec.Typed1.{Typed1 as Typed};
ghost use Rattle.lido_syntax.specs.Production.{name_of, left_of, symbol_of};
ghost use Rattle.lido_syntax.specs.Sets.{names_of};
ghost use Rattle.kind_clashes.specs.Least.{Among};
ghost use Rattle.kind_clashes.specs.Names.{HasMore};
ghost use Rattle.kind_clashes.specs.Sets.{AreNameSets, is_plain_terminal_in, is_terminal_in};

use crate::names::Names;
use lido_base::{Memory, StrId};
use lido_syntax::{Element, RuleItem, Spec, SymbolItem, Typed1};
use std::alloc::Global;

/// The names of a specification, by what they are. A name may be of several sets.
#[derive(Drop)]
pub struct NameSets {
    pub classes: Names,
    /// The names on left sides.
    pub nonterminals: Names,
    /// The names that TERM declares.
    pub declared: Names,
    /// The names on right sides.
    pub right_sides: Names,
    pub chains: Names,
}

fn add_left_sides(names: &mut Names, rules: &[RuleItem]) -> Result<(), Memory>
    ensures { OnOk result (HasMore (Among (λ (r : Rule) s. left_of r ≡ s) rules.now) names.old names.new) }
{
    for rule in rules {
        names.add(rule.left.id)?;
    }
    Ok(())
}

fn add_element(names: &mut Names, element: Element) -> Result<(), Memory>
    ensures { OnOk result (HasMore (λ s. symbol_of element ≡ Some s) names.old names.new) }
{
    match element {
        Element::Symbol(name) => names.add(name.id),
        Element::Literal(_) => Ok(()),
    }
}

fn add_elements(names: &mut Names, elements: &[Element]) -> Result<(), Memory>
    ensures { OnOk result (HasMore (Among (λ (e : ElementOf) s. symbol_of e ≡ Some s) elements.now) names.old names.new) }
{
    for element in elements {
        add_element(names, *element)?;
    }
    Ok(())
}

fn add_right_sides(names: &mut Names, rules: &[RuleItem]) -> Result<(), Memory>
    ensures { OnOk result (HasMore (Among (λ (r : Rule). Among (λ (e : ElementOf) s. symbol_of e ≡ Some s) r.right) rules.now)
        names.old names.new) }
{
    for rule in rules {
        add_elements(names, rule.right.as_slice())?;
    }
    Ok(())
}

fn add_typed(names: &mut Names, typed: &[Typed1]) -> Result<(), Memory>
    ensures { OnOk result (HasMore (Among (λ (x : Typed) s. name_of x.name ≡ s) typed.now) names.old names.new) }
{
    for one in typed {
        names.add(one.name.id)?;
    }
    Ok(())
}

fn add_class(names: &mut Names, item: &SymbolItem) -> Result<(), Memory>
    ensures { OnOk result (HasMore (λ s. IsTrue item.now.class × Contains (names_of item.now) s) names.old names.new) }
{
    if !item.class {
        return Ok(());
    }
    names.add_all(item.names.as_slice())
}

fn add_classes(names: &mut Names, items: &[SymbolItem]) -> Result<(), Memory>
    ensures { OnOk result (HasMore (Among (λ (item : Item) s. IsTrue item.class × Contains (names_of item) s) items.now)
        names.old names.new) }
{
    for item in items {
        add_class(names, item)?;
    }
    Ok(())
}

impl NameSets {
    /// The sets of a specification's names. The time is near linear in its size.
    pub fn of(alloc: Global, spec: &Spec) -> Result<NameSets, Memory>
        ensures { IfOk result (AreNameSets spec.now) }
    {
        let mut classes = Names::new(alloc);
        add_classes(&mut classes, spec.symbols.as_slice())?;
        let mut nonterminals = Names::new(alloc);
        add_left_sides(&mut nonterminals, spec.rules.as_slice())?;
        let mut declared = Names::new(alloc);
        add_typed(&mut declared, spec.terms.as_slice())?;
        let mut right_sides = Names::new(alloc);
        add_right_sides(&mut right_sides, spec.rules.as_slice())?;
        let mut chains = Names::new(alloc);
        add_typed(&mut chains, spec.chains.as_slice())?;
        Ok(NameSets {
            classes,
            nonterminals,
            declared,
            right_sides,
            chains,
        })
    }

    /// Whether the name is a terminal: it stands on no left side, and TERM declares it or it stands on a right side.
    pub fn is_terminal(&self, id: StrId) -> bool
        ensures { result ≡ is_terminal_in self.now id.0 }
    {
        !self.nonterminals.has(id) && (self.declared.has(id) || self.right_sides.has(id))
    }

    /// Whether the name is a terminal and no class.
    pub fn is_plain_terminal(&self, id: StrId) -> bool
        ensures { result ≡ is_plain_terminal_in self.now id.0 }
    {
        self.is_terminal(id) && !self.classes.has(id)
    }
}
