//! Numbers of symbols.
ghost use Rattle.std.specs.Prelude.{◌≡◌, ◌<◌, ◌≤◌, IfSome, length};
ghost use Rattle.symbol_inherit.specs.Rows.{is_named, row_number};

use lido_base::StrId;
use rule_tables::{SymbolClass, SymbolRow};

/// Whether the row is that of the symbol with this name. A cell's row is that of no name.
fn is_row_of(row: &SymbolRow, name: StrId) -> bool
    ensures { result ≡ is_named name.0 row.now }
{
    match row.class {
        SymbolClass::Cell => false,
        _ => row.name.0 == name.0,
    }
}

/// The place of the row of the symbol with this name.
fn row_place(rows: &[SymbolRow], name: StrId) -> Option<usize>
    ensures place { result ≡ row_number rows.now name.0 }
    ensures within { IfSome result (λ x. x < length rows.now) }
{
    rows.iter().position(|row| is_row_of(row, name))
}

/// The number of the symbol with this name.
pub fn symbol_number(rows: &[SymbolRow], name: StrId) -> Option<u16>
    requires { length rows.now ≤ 65536 }
    ensures { result ≡ row_number rows.now name.0 }
{
    match row_place(rows, name) {
        Some(place) => Some(place as u16),
        None => None,
    }
}
