//! Attributes and visits at the occurrences of a rule.
ghost use Rattle.std.specs.Prelude.{◌≡◌, None, Some, MatchOption, is_some};
ghost use Rattle.flat_grammar.specs.WellFormed.{attribute_of};
ghost use Rattle.sequence_checker.specs.Classes.{class_of};

use flat_grammar::{FlatRule, FlatSymbol, Occ, VisitClass, row_at, symbol_at};
use lido_base::List;

/// Whether there is such an attribute at an occurrence of a rule.
pub fn is_attribute(symbols: &[FlatSymbol], rule: &FlatRule, o: Occ) -> bool
    ensures { result ≡ is_some (attribute_of symbols.now rule.now o) }
{
    let Some(symbol) = symbol_at(rule, o.occ) else {
        return false;
    };
    let Some(symbol) = symbols.get(symbol.0 as usize) else {
        return false;
    };
    (o.attr.0 as usize) < symbol.attrs.len()
}

/// What passes in a visit, counted from 1, of the symbol at an occurrence of a rule.
pub fn class_at<'a>(
    visits: &'a [List<VisitClass>],
    rule: &FlatRule,
    occ: u16,
    visit: usize,
) -> Option<&'a VisitClass>
    ensures { MatchOption result (class_of visits.now rule.now occ visit ≡ None)
        (λ class. class_of visits.now rule.now occ visit ≡ Some class.now) }
{
    if visit == 0 {
        return None;
    }
    let row = row_at(visits, rule, occ)?;
    row.get(visit - 1)
}
