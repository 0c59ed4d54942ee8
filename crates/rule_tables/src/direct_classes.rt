//! The classes that symbols inherit directly.
ghost use Rattle.std.specs.Prelude.{◌≡◌, ◌≤◌, nat_eq, map, length, Contains, IfOk, OnOk};
ghost use Rattle.std.specs.List.{list_any};
ghost use Rattle.lido_base.specs.Environment.{Environment};
ghost use Rattle.lido_base.specs.Tree.{contains};
ghost use Rattle.lido_syntax.specs.declared.spec.Spec.{Spec as Specification};
ghost use Rattle.lido_syntax.specs.declared.spec.Name.{Name as Named};
ghost use Rattle.lido_syntax.specs.declared.spec.SymbolItem.{SymbolItem as Item};
ghost use Rattle.lido_syntax.specs.Production.{name_of};
ghost use Rattle.lido_syntax.specs.Sets.{names_of};
ghost use Rattle.kind_clashes.specs.Least.{Among};
ghost use Rattle.kind_clashes.specs.Names.{HasMore, IsSetOf};
ghost use Rattle.rule_tables.specs.DirectClasses.{inherited_by, IsHandedBy, AreNumbersOf};
ghost use Rattle.rule_tables.specs.TablesOf.{AreClassesOf};

use kind_clashes::Names as Classes;
use lido_base::{List, Memory, StrId, SymId};
use lido_symbols::{Names, different_names};
use lido_syntax::{Name, SymbolItem};
use std::alloc::Global;

/// Whether one of the names is this one.
fn has_name(names: &[Name], id: StrId) -> bool
    ensures { result ≡ list_any (λ (x : Named). nat_eq id.0 (name_of x)) names.now }
{
    names.iter().any(|name| id.0 == name.id.0)
}

/// Whether the item is about the symbol.
fn is_about(item: &SymbolItem, symbol: StrId) -> bool
    ensures { result ≡ contains symbol.0 (names_of item.now) }
{
    has_name(item.names.as_slice(), symbol)
}

/// For each item the different names that it has behind INHERITS.
pub fn inherited_names(alloc: Global, items: &[SymbolItem]) -> Result<Vec<Names>, Memory>
    ensures { IfOk result (λ lists. lists.items ≡ map inherited_by items.now) }
{
    let mut lists = Vec::new(alloc);
    for item in items {
        lists.push(different_names(alloc, item.inherits.as_slice())?)?;
    }
    Ok(lists)
}

/// Adds names.
fn add_all(classes: &mut Classes, ids: &[u32]) -> Result<(), Memory>
    ensures { OnOk result (HasMore (λ class. Contains ids.now class) classes.old classes.new) }
{
    for id in ids {
        classes.add(StrId(*id))?;
    }
    Ok(())
}

/// Adds the classes that the item hands to the symbol. (`inherited` are the different names behind its INHERITS.)
fn add_handed(
    classes: &mut Classes,
    item: &SymbolItem,
    inherited: &Names,
    symbol: StrId,
) -> Result<(), Memory>
    requires { inherited.now ≡ inherited_by item.now }
    ensures { OnOk result (HasMore (IsHandedBy symbol.0 item.now) classes.old classes.new) }
{
    if !is_about(item, symbol) {
        return Ok(());
    }
    add_all(classes, inherited.as_slice())?;
    Ok(())
}

/// The classes that items of the symbol name behind INHERITS. (`inherited` are, for each item, its different names there.)
fn handed_to(
    alloc: Global,
    items: &[SymbolItem],
    inherited: &[Names],
    symbol: StrId,
) -> Result<Classes, Memory>
    requires { inherited.now ≡ map inherited_by items.now }
    ensures { IfOk result (IsSetOf (Among (IsHandedBy symbol.0) items.now)) }
{
    let mut classes = Classes::new(alloc);
    for (k, item) in items.iter().enumerate() {
        add_handed(&mut classes, item, &inherited[k], symbol)?;
    }
    Ok(classes)
}

/// The numbers of these classes, ascending.
fn numbers_of(alloc: Global, symbols: &Names, classes: &Classes) -> Result<List<SymId>, Memory>
    requires { length symbols.now ≤ 512 }
    ensures { IfOk result (AreNumbersOf symbols.now classes.now (length symbols.now)) }
{
    let mut ids = Vec::new(alloc);
    for (k, symbol) in symbols.as_slice().iter().enumerate() {
        if classes.has(StrId(*symbol)) {
            ids.push(SymId(k as u16))?;
        }
    }
    Ok(List::from_vec(ids))
}

/// The classes that items of the symbol name behind INHERITS, each once, by their numbers. (`symbols` are all that the items
/// name, and `inherited` are, for each item, its different names behind INHERITS.)
pub fn direct_classes(
    alloc: Global,
    symbols: &Names,
    items: &[SymbolItem],
    inherited: &[Names],
    symbol: StrId,
) -> Result<List<SymId>, Memory>
    requires few { length symbols.now ≤ 512 }
    requires inherited { inherited.now ≡ map inherited_by items.now }
    requires numbered { (item : Item) (x : Named) → Contains items.now item → Contains item.inherits x → Contains symbols.now (name_of x) }
    ensures { IfOk result (λ ids. (spec : Specification) (env : Environment) → spec.symbols ≡ items.now
        → AreClassesOf spec env symbols.now symbol.0 ids) }
{
    let classes = handed_to(alloc, items, inherited, symbol)?;
    numbers_of(alloc, symbols, &classes)
}
