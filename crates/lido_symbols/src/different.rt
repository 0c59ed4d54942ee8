//! Different names, at their first places.
ghost use Rattle.std.specs.Prelude.{◌≡◌, map, IfOk};
ghost use Rattle.lido_syntax.specs.Production.{name_of, right_of};
ghost use Rattle.lido_symbols.specs.Numbers.{different};
ghost use Rattle.lido_symbols.specs.Occurrences.{numbers};

use crate::Names;
use crate::production::right_symbols;
use lido_base::{Memory, StrId};
use lido_syntax::{Name, RuleItem};
use std::alloc::Global;

fn different_ids(alloc: Global, ids: &[StrId]) -> Result<Names, Memory>
    ensures { IfOk result (λ names. names ≡ different (numbers ids.now)) }
{
    let mut names = Names::new(alloc);
    for id in ids {
        names.add(*id)?;
    }
    Ok(names)
}

/// The different symbols of a right side, at their first places.
pub fn different_symbols(alloc: Global, rule: &RuleItem) -> Result<Names, Memory>
    ensures { IfOk result (λ names. names ≡ different (right_of rule.now)) }
{
    let right = right_symbols(alloc, rule)?;
    different_ids(alloc, &right)
}

/// The different ones of these names, at their first places.
pub fn different_names(alloc: Global, names: &[Name]) -> Result<Names, Memory>
    ensures { IfOk result (λ found. found ≡ different (map name_of names.now)) }
{
    let mut found = Names::new(alloc);
    for name in names {
        found.add(name.id)?;
    }
    Ok(found)
}
