//! The names of the symbols on a path.
ghost use Rattle.std.specs.Prelude.{◌≡◌, map, IfOk};
ghost use Rattle.remote_lists.specs.Paths.{name_in};

use lido_base::{List, Memory, StrId};
use rule_tables::SymbolRow;
use std::alloc::Global;

/// The name of the symbol or cell of that number.
fn name_at(rows: &[SymbolRow], x: usize) -> StrId
    ensures { result ≡ name_in rows.now x }
{
    match rows.get(x) {
        Some(row) => row.name,
        None => StrId(0),
    }
}

/// The names of the symbols and cells on a path. An `Err` is want of memory.
pub fn path_names(alloc: Global, rows: &[SymbolRow], path: &[usize]) -> Result<List<StrId>, Memory>
    ensures { IfOk result (λ names. names ≡ map (name_in rows.now) path.now) }
{
    let mut names = Vec::new(alloc);
    for x in path {
        names.push(name_at(rows, *x))?;
    }
    Ok(List::from_vec(names))
}
