//! What stands at an occurrence of a rule.
ghost use Rattle.std.specs.Prelude.{◌≡◌, MatchOption};
ghost use Rattle.flat_grammar.specs.Rules.{symbol_at as symbol_of};
ghost use Rattle.flat_grammar.specs.SoundPlan.{row_of};
ghost use Rattle.flat_grammar.specs.WellFormed.{cell_of as cell_symbol};

use crate::{Flat, FlatRule, Shape, VisitClass};
use lido_base::{List, SymId};

/// The symbol at an occurrence of the rule.
pub fn symbol_at(rule: &FlatRule, occ: u16) -> Option<SymId>
    ensures { result ≡ symbol_of rule.now occ }
{
    if occ == 0 {
        return Some(rule.left);
    }
    rule.right.as_slice().get(occ as usize - 1).copied()
}

/// The visits of the symbol at an occurrence of the rule. `None` where no symbol stands, or one that the rows don't have.
pub fn row_at<'a>(
    visits: &'a [List<VisitClass>],
    rule: &FlatRule,
    occ: u16,
) -> Option<&'a [VisitClass]>
    ensures { MatchOption result (row_of visits.now rule.now occ ≡ None) (λ row. row_of visits.now rule.now occ ≡ Some row.now) }
{
    let symbol = symbol_at(rule, occ)?;
    match visits.get(symbol.0 as usize) {
        Some(row) => Some(row.as_slice()),
        None => None,
    }
}

/// The cell of a list: the first symbol on the right side of its rule, and symbol 0 where there is none.
pub fn cell_of(flat: &Flat, shape: &Shape) -> SymId
    ensures { result ≡ cell_symbol flat.now.rules shape.now }
{
    flat.rules
        .as_slice()
        .get(shape.rule.0 as usize)
        .and_then(|rule| rule.right.as_slice().get(0))
        .copied()
        .unwrap_or(SymId(0))
}
