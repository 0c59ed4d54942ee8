//! The root.
ghost use Rattle.std.specs.Prelude.{◌≡◌, ◌≤◌, length};
ghost use Rattle.lido_syntax.specs.declared.spec.Spec.{Spec as Specification};
ghost use Rattle.kind_clashes.specs.Sets.{AreNameSets};
ghost use Rattle.rule_tables.specs.Roots.{IsRootOf};

use crate::rule_shapes::symbol_id;
use kind_clashes::NameSets;
use lido_base::SymId;
use lido_symbols::Names;
use lido_syntax::RuleItem;

/// The nonterminal that stands on no right side, the first one where there are several, and `None` where there is none.
pub fn root_of(symbols: &Names, sets: &NameSets, rules: &[RuleItem]) -> Option<SymId>
    requires { length symbols.now ≤ 512 }
    ensures { (spec : Specification) → spec.rules ≡ rules.now → AreNameSets spec sets.now → IsRootOf spec symbols.now result }
{
    for rule in rules {
        if !sets.right_sides.has(rule.left.id) {
            return Some(symbol_id(symbols, rule.left.id));
        }
    }
    None
}
