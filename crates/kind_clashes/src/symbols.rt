//! Classes in productions, terminals in lists, and names behind INHERITS that are no classes.
ghost use Rattle.std.specs.Prelude.{◌≡◌, true, Some, Contains, IsTrue};
ghost use Rattle.lido_syntax.specs.declared.spec.Element.{Element as ElementOf};
ghost use Rattle.lido_syntax.specs.declared.spec.Name.{Name as NameOf};
ghost use Rattle.lido_syntax.specs.declared.spec.RuleItem.{RuleItem as Rule};
ghost use Rattle.lido_syntax.specs.declared.spec.SymbolItem.{SymbolItem as Item};
ghost use Rattle.lido_syntax.specs.Production.{name_of};
ghost use Rattle.lido_symbols.specs.Uses.{element_name};
ghost use Rattle.kind_clashes.specs.Least.{IsFirst, Among};
ghost use Rattle.kind_clashes.specs.Names.{has};
ghost use Rattle.kind_clashes.specs.Sets.{AreNameSets, is_terminal_in};
ghost use Rattle.kind_clashes.specs.Symbols.{IsElementIn, IsTerminalElement, IsClassInProduction, IsTerminalInList, InheritsNoClass};

use crate::least::earlier;
use crate::names::{Names, if_in, least_not_in};
use crate::sets::NameSets;
use lido_syntax::{Element, Name, RuleItem, Spec, SymbolItem};

fn element_in(names: &Names, element: Element) -> Option<u32>
    ensures { IsFirst (IsElementIn names.now element) result }
{
    match element {
        Element::Symbol(name) => if_in(names, name),
        Element::Literal(_) => None,
    }
}

fn least_element_in(names: &Names, elements: &[Element]) -> Option<u32>
    ensures { IsFirst (Among (IsElementIn names.now) elements.now) result }
{
    let mut least = None;
    for element in elements {
        least = earlier(least, element_in(names, *element));
    }
    least
}

fn class_in_production(sets: &NameSets, rule: &RuleItem) -> Option<u32>
    ensures { IsFirst (IsClassInProduction sets.now rule.now) result }
{
    earlier(
        if_in(&sets.classes, rule.left),
        least_element_in(&sets.classes, rule.right.as_slice()),
    )
}

/// The least place of a class that stands in a production.
pub fn class_in_productions(sets: &NameSets, rules: &[RuleItem]) -> Option<u32>
    ensures { IsFirst (Among (IsClassInProduction sets.now) rules.now) result }
{
    let mut least = None;
    for rule in rules {
        least = earlier(least, class_in_production(sets, rule));
    }
    least
}

fn if_terminal(sets: &NameSets, name: Name) -> Option<u32>
    ensures { IsFirst (λ at. IsTrue (is_terminal_in sets.now (name_of name)) × (at ≡ name.at)) result }
{
    if sets.is_terminal(name.id) {
        Some(name.at)
    } else {
        None
    }
}

fn terminal_element(sets: &NameSets, element: Element) -> Option<u32>
    ensures { IsFirst (IsTerminalElement sets.now element) result }
{
    match element {
        Element::Symbol(name) => if_terminal(sets, name),
        Element::Literal(_) => None,
    }
}

fn terminal_among(sets: &NameSets, elements: &[Element]) -> Option<u32>
    ensures { IsFirst (Among (IsTerminalElement sets.now) elements.now) result }
{
    let mut least = None;
    for element in elements {
        least = earlier(least, terminal_element(sets, *element));
    }
    least
}

fn terminal_in_list(sets: &NameSets, rule: &RuleItem) -> Option<u32>
    ensures { IsFirst (IsTerminalInList sets.now rule.now) result }
{
    if !rule.list {
        return None;
    }
    terminal_among(sets, rule.right.as_slice())
}

/// The least place of a LISTOF's element that is a terminal.
pub fn terminal_in_lists(sets: &NameSets, rules: &[RuleItem]) -> Option<u32>
    ensures { IsFirst (Among (IsTerminalInList sets.now) rules.now) result }
{
    let mut least = None;
    for rule in rules {
        least = earlier(least, terminal_in_list(sets, rule));
    }
    least
}

fn inherits_no_class_in(sets: &NameSets, item: &SymbolItem) -> Option<u32>
    ensures { IsFirst (InheritsNoClass sets.now item.now) result }
{
    least_not_in(&sets.classes, item.inherits.as_slice())
}

/// The least place of a name behind INHERITS that is no class.
pub fn inherits_no_class(sets: &NameSets, items: &[SymbolItem]) -> Option<u32>
    ensures { IsFirst (Among (InheritsNoClass sets.now) items.now) result }
{
    let mut least = None;
    for item in items {
        least = earlier(least, inherits_no_class_in(sets, item));
    }
    least
}
