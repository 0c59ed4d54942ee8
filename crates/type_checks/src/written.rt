//! The written rules of plain rules.
ghost use Rattle.std.specs.Prelude.{◌≡◌, ◌++◌, ◌∷◌, [], ℕ, if◌then◌else◌, Some, ◌<◌, length, slice_get, IfOk, OnOk};
ghost use Rattle.lido_base.specs.Environment.{Environment};
ghost use Rattle.rule_tables.specs.PlainRules.{PlainRule, plain_rules, lists};
ghost use Rattle.rule_tables.specs.TablesOf.{named_symbols, AreTablesOf};
ghost use Rattle.type_checks.specs.Written.{list_numbers, IsWrittenRule};

use flat_grammar::FlatRule;
use lido_base::Memory;
use lido_syntax::RuleItem;
use rule_tables::Tables;
use std::alloc::Global;

/// Adds the number of the rule, if that is a list.
fn push_list(numbers: &mut Vec<usize>, number: usize, rule: &RuleItem) -> Result<(), Memory>
    ensures { OnOk result (numbers.new.items ≡ numbers.old.items ++ (if rule.now.list then number ∷ [] else [])) }
{
    if rule.list {
        numbers.push(number)?;
    }
    Ok(())
}

/// The numbers of the rules that are lists.
pub(crate) fn list_rules(alloc: Global, rules: &[RuleItem]) -> Result<Vec<usize>, Memory>
    ensures { IfOk result (λ numbers. numbers.items ≡ list_numbers rules.now) }
{
    let mut numbers = Vec::new(alloc);
    for (k, rule) in rules.iter().enumerate() {
        push_list(&mut numbers, k, rule)?;
    }
    Ok(numbers)
}

/// A plain rule, by number.
pub(crate) fn plain_rule(tables: &Tables, j: usize) -> &FlatRule
    requires { j < length tables.now.plain }
    ensures { slice_get tables.now.plain j ≡ Some result.now }
{
    &tables.plain.as_slice()[j]
}

/// A written rule, by number.
fn rule_at(rules: &[RuleItem], i: usize) -> &RuleItem
    requires { i < length rules.now }
    ensures { slice_get rules.now i ≡ Some result.now }
{
    &rules[i]
}

/// The number at a place.
fn number_at(numbers: &[usize], k: usize) -> usize
    requires { k < length numbers.now }
    ensures { slice_get numbers.now k ≡ Some result }
{
    numbers[k]
}

/// The written rule of a plain rule, by number: the plain rules of written ones come first, and those of a list's cell have the cell
/// on their left sides. (`numbers` are those of the lists.)
pub(crate) fn written_rule<'a>(tables: &'a Tables, numbers: &[usize], j: usize) -> &'a RuleItem
    requires tables { (env : Environment) × AreTablesOf env tables.now }
    requires numbers { numbers.now ≡ lists tables.now.spec (named_symbols tables.now) }
    requires there { (p : PlainRule) × (slice_get (plain_rules tables.now.spec (named_symbols tables.now)) j ≡ Some p) }
    ensures { IsWrittenRule tables.now j result.now }
{
    let rules = tables.spec.rules.as_slice();
    if j < rules.len() {
        return rule_at(rules, j);
    }
    let plain = plain_rule(tables, j);
    let named = tables.symbols.len() - numbers.len();
    let number = number_at(numbers, plain.left.0 as usize - named);
    rule_at(rules, number)
}
