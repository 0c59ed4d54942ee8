//! Visits at the occurrences of a rule.
ghost use Rattle.std.specs.Prelude.{◌≡◌};
ghost use Rattle.visit_sequences.specs.Steps.{visits_there};

use flat_grammar::{FlatRule, VisitClass, row_at};
use lido_base::List;

/// The visits of the symbol at an occurrence of a rule, none where there is no symbol.
pub fn visits_at<'a>(visits: &'a [List<VisitClass>], rule: &FlatRule, occ: u16) -> &'a [VisitClass]
    ensures { result.now ≡ visits_there visits.now rule.now occ }
{
    match row_at(visits, rule, occ) {
        Some(row) => row,
        None => &[],
    }
}
