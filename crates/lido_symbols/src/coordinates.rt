//! Which bare names are coordinates, and which names are symbols of a production.
ghost use Rattle.std.specs.Prelude.{◌≡◌, is_some};
ghost use Rattle.std.specs.List.{list_any};
ghost use Rattle.lido_base.specs.Environment.{Environment};
ghost use Rattle.lido_base.specs.Tree.{contains};
ghost use Rattle.lido_syntax.specs.Functions.{text_of};
ghost use Rattle.lido_syntax.specs.Production.{symbols_of};
ghost use Rattle.lido_syntax.specs.Coordinates.{part_named};
ghost use Rattle.lido_symbols.specs.Uses.{is_coordinate_of_rule, is_coordinate_of_symbol};
ghost use Rattle.lido_symbols.specs.Occurrences.{names_symbol};

use lido_base::{StrId, Strings};
use lido_syntax::{Element, Name, RuleItem};

/// Whether the text of the name is that of a coordinate, LINE or COL.
pub fn is_part(strings: &Strings, id: StrId) -> bool
    ensures { (env : Environment) → env.texts ≡ strings.now → result ≡ is_some (part_named (text_of env id.0)) }
{
    if id.0 as usize >= strings.len() {
        return false;
    }
    let text = strings.bytes(id);
    text == b"LINE".as_slice() || text == b"COL".as_slice()
}

/// Whether the element is the symbol of that name.
fn is_symbol(element: &Element, id: StrId) -> bool
    ensures { result ≡ names_symbol id.0 element.now }
{
    match element {
        Element::Symbol(name) => name.id == id,
        Element::Literal(_) => false,
    }
}

/// Whether one of the elements is the symbol of that name.
fn has_symbol(elements: &[Element], id: StrId) -> bool
    ensures { result ≡ list_any (names_symbol id.0) elements.now }
{
    elements.iter().any(|element| is_symbol(element, id))
}

/// Whether the name is a symbol of the production, the left side or one of the right side.
fn is_in_production(rule: &RuleItem, id: StrId) -> bool
    ensures { result ≡ contains id.0 (symbols_of rule.now) }
{
    rule.left.id == id || has_symbol(rule.right.as_slice(), id)
}

/// Whether a bare name of a rule's computation is a coordinate: it is LINE or COL, has no index, and no symbol of the
/// production has the name. It walks along the right side; `Production` tells it without.
pub fn is_coordinate_in_rule(
    strings: &Strings,
    rule: &RuleItem,
    name: Name,
    index: Option<i64>,
) -> bool
    ensures { (env : Environment) → env.texts ≡ strings.now → result ≡ is_coordinate_of_rule env rule.now name index }
{
    index.is_none() && is_part(strings, name.id) && !is_in_production(rule, name.id)
}

/// Whether a bare name of a symbol's computation is a coordinate: it is LINE or COL and has no index.
pub fn is_coordinate_in_symbol(strings: &Strings, name: Name, index: Option<i64>) -> bool
    ensures { (env : Environment) → env.texts ≡ strings.now → result ≡ is_coordinate_of_symbol env name index }
{
    index.is_none() && is_part(strings, name.id)
}
