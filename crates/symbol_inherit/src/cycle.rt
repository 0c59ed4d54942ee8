//! Classes that inherit themselves.
ghost use Rattle.std.specs.Prelude.{◌≡◌, map, IfOk, IfSome, IfNone};
ghost use Rattle.lido_base.specs.Environment.{Environment};
ghost use Rattle.lido_syntax.specs.declared.fault.SpecFault.{SpecFault as AnyFault};
ghost use Rattle.lido_syntax.specs.declared.fault.SpecFault.TheVariants as Fault;
ghost use Rattle.rule_tables.specs.TablesOf.{AreTablesOf, named_symbols};
ghost use Rattle.rule_tables.specs.Needs.{Tables as Numbered};
ghost use Rattle.rule_tables.specs.InForceFaults.{IsClassCycle};
ghost use Rattle.symbol_inherit.specs.Rows.{name_in};

use crate::classes::heirs_graph;
use least_paths::least_cycle;
use lido_base::{List, Memory, StrId};
use rule_tables::{SymbolRow, Tables};
use std::alloc::Global;

/// The name of the symbol with this number.
fn name_of(rows: &[SymbolRow], number: usize) -> StrId
    ensures { result ≡ name_in rows.now number }
{
    match rows.get(number) {
        Some(row) => row.name,
        None => StrId(0),
    }
}

/// The names of symbols by their numbers.
fn names(alloc: Global, rows: &[SymbolRow], numbers: &[usize]) -> Result<List<StrId>, Memory>
    ensures { IfOk result (λ path. path ≡ map (name_in rows.now) numbers.now) }
{
    let mut path = Vec::new(alloc);
    for number in numbers {
        path.push(name_of(rows, *number))?;
    }
    Ok(List::from_vec(path))
}

/// A class that inherits itself, by the least of the shortest ways, whose names are answered: the first of its path is also
/// the last. `None` is that no class inherits itself. An `Err` is want of memory.
pub fn class_cycle(alloc: Global, tables: &Tables) -> Result<Option<List<StrId>>, Memory>
    requires { (env : Environment) × AreTablesOf env tables.now }
    ensures cycle { IfOk result (λ found. IfSome found (λ path. (T : Numbered tables.now.spec) → T.symbols ≡ named_symbols tables.now
        → IsClassCycle tables.now.spec T (Fault.ClassCycle path))) }
    ensures none { IfOk result (λ found. IfNone found ((T : Numbered tables.now.spec) (fault : AnyFault)
        → T.symbols ≡ named_symbols tables.now → ¬ IsClassCycle tables.now.spec T fault)) }
{
    let rows = tables.symbols.as_slice();
    let graph = heirs_graph(alloc, rows)?;
    match least_cycle(alloc, &graph)? {
        Some(cycle) => Ok(Some(names(alloc, rows, &cycle)?)),
        None => Ok(None),
    }
}
