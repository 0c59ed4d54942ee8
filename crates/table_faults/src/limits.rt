//! Limits on what a specification has.
ghost use Rattle.std.specs.Prelude.{◌≡◌, ◌↔◌, ◌<◌, ◌+◌, ℕ, IsTrue, IfOk, None, Some, map, length, filter, sum_by, flat_map, Contains};
ghost use Rattle.lido_base.specs.Environment.{Environment};
ghost use Rattle.lido_base.specs.Faults.{HasNone, First};
ghost use Rattle.lido_base.specs.declared.kinds.Many.{Many as Limit};
ghost use Rattle.lido_syntax.specs.declared.spec.Spec.{Spec as Specification};
ghost use Rattle.lido_syntax.specs.declared.spec.RuleItem.{RuleItem as Rule};
ghost use Rattle.lido_syntax.specs.declared.spec.SymbolItem.{SymbolItem as Item};
ghost use Rattle.lido_syntax.specs.declared.fault.SpecFault.TheVariants as fault;
ghost use Rattle.lido_syntax.specs.Production.{right_of};
ghost use Rattle.lido_symbols.specs.Uses.{computations, all_constituents};
ghost use Rattle.table_faults.specs.Faults.{symbol_count, plain_count};
ghost use Rattle.table_faults.specs.Limits.{Counts, constituents_in, size_of, limit_faults};

use lido_base::{Many, Memory, Strings};
use lido_symbols::{different_names, different_symbols, leaves, right_symbols, symbol_names};
use lido_syntax::{Comp, Expr, RuleItem, Spec, SymbolItem};
use std::alloc::Global;

fn list_count(rules: &[RuleItem]) -> usize
    ensures { result ≡ length (filter (λ (r : Rule). r.list) rules.now) }
{
    let mut count = 0;
    for rule in rules {
        if rule.list {
            count += 1;
        }
    }
    count
}

/// Whether there are more than 512 symbols, cells of lists among them.
fn has_many_symbols(alloc: Global, spec: &Spec, strings: &Strings) -> Result<bool, Memory>
    ensures { IfOk result (λ many. (env : Environment) → env.texts ≡ strings.now → IsTrue many ↔ 512 < symbol_count spec.now env) }
{
    let names = symbol_names(alloc, spec, strings)?;
    let symbols = different_names(alloc, &names)?;
    let lists = list_count(spec.rules.as_slice());
    Ok(symbols.len().saturating_add(lists) > 512)
}

/// How many plain rules a rule has.
fn plain_rules(alloc: Global, rule: &RuleItem) -> Result<usize, Memory>
    ensures { IfOk result (λ count. (spec : Specification) (env : Environment) → Counts (plain_count spec env rule.now) count) }
{
    if !rule.list {
        return Ok(1);
    }
    let elements = different_symbols(alloc, rule)?;
    Ok(elements.len().saturating_add(2))
}

/// Whether there are more than 1,024 plain rules.
fn has_many_rules(alloc: Global, rules: &[RuleItem]) -> Result<bool, Memory>
    ensures { IfOk result (λ many. (spec : Specification) (env : Environment) → IsTrue many ↔ 1024 < sum_by (plain_count spec env) rules.now) }
{
    let mut count: usize = 0;
    for rule in rules {
        count = count.saturating_add(plain_rules(alloc, rule)?);
    }
    Ok(count > 1024)
}

/// Whether there are more than 1,024 symbols on a rule's right side.
fn is_long(alloc: Global, rule: &RuleItem) -> Result<bool, Memory>
    ensures { IfOk result (λ long. IsTrue long ↔ 1024 < length (right_of rule.now)) }
{
    let right = right_symbols(alloc, rule)?;
    Ok(right.len() > 1024)
}

/// Whether some rule is that long.
fn has_long_rule(alloc: Global, rules: &[RuleItem]) -> Result<bool, Memory>
    ensures { IfOk result (λ long. IsTrue long ↔ ((r : Rule) × Contains rules.now r × (1024 < length (right_of r)))) }
{
    for rule in rules {
        if is_long(alloc, rule)? {
            return Ok(true);
        }
    }
    Ok(false)
}

fn constituents_count(leaves: &[&Expr]) -> usize
    ensures { result ≡ constituents_in (map (λ e. e.now) leaves.now) }
{
    let mut count = 0;
    for leaf in leaves {
        if let Expr::Constituents(_) = leaf {
            count += 1;
        }
    }
    count
}

/// A computation and the CONSTITUENTS in it.
fn comp_size(alloc: Global, comp: &Comp) -> Result<usize, Memory>
    ensures { IfOk result (Counts (size_of comp.now)) }
{
    let all = leaves(alloc, comp)?;
    Ok(constituents_count(&all).saturating_add(1))
}

fn body_size(alloc: Global, body: &[Comp]) -> Result<usize, Memory>
    ensures { IfOk result (Counts (sum_by size_of body.now)) }
{
    let mut size: usize = 0;
    for comp in body {
        size = size.saturating_add(comp_size(alloc, comp)?);
    }
    Ok(size)
}

fn rules_size(alloc: Global, rules: &[RuleItem]) -> Result<usize, Memory>
    ensures { IfOk result (Counts (sum_by (λ (r : Rule). sum_by size_of r.body) rules.now)) }
{
    let mut size: usize = 0;
    for rule in rules {
        size = size.saturating_add(body_size(alloc, rule.body.as_slice())?);
    }
    Ok(size)
}

fn symbols_size(alloc: Global, items: &[SymbolItem]) -> Result<usize, Memory>
    ensures { IfOk result (Counts (sum_by (λ (item : Item). sum_by size_of item.body) items.now)) }
{
    let mut size: usize = 0;
    for item in items {
        size = size.saturating_add(body_size(alloc, item.body.as_slice())?);
    }
    Ok(size)
}

/// Whether there are more than 65,536 computations and CONSTITUENTS.
fn has_many_computations(alloc: Global, spec: &Spec) -> Result<bool, Memory>
    ensures { IfOk result (λ many. IsTrue many ↔ 65536 < length (computations spec.now) + length (all_constituents spec.now)) }
{
    let rules = rules_size(alloc, spec.rules.as_slice())?;
    let symbols = symbols_size(alloc, spec.symbols.as_slice())?;
    Ok(rules.saturating_add(symbols) > 65536)
}

/// The first limit that the specification passes: on symbols with the cells of lists (512), plain rules (1,024), symbols on a
/// right side (1,024), computations with the CONSTITUENTS (65,536).
pub fn too_many(alloc: Global, spec: &Spec, strings: &Strings) -> Result<Option<Many>, Memory>
    ensures none { IfOk result (λ found. (env : Environment) → env.texts ≡ strings.now → found ≡ None → HasNone (limit_faults spec.now env)) }
    ensures some { IfOk result (λ found. (env : Environment) → env.texts ≡ strings.now → (what : Limit) → found ≡ Some what → First (limit_faults spec.now env) (fault.TooMany what)) }
{
    let rules = spec.rules.as_slice();
    if has_many_symbols(alloc, spec, strings)? {
        Ok(Some(Many::Symbols))
    } else if has_many_rules(alloc, rules)? {
        Ok(Some(Many::Rules))
    } else if has_long_rule(alloc, rules)? {
        Ok(Some(Many::Elements))
    } else if has_many_computations(alloc, spec)? {
        Ok(Some(Many::Computations))
    } else {
        Ok(None)
    }
}
