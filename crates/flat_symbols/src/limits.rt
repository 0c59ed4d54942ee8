//! The limit on attributes.
ghost use Rattle.std.specs.Prelude.{◌≤◌, ◌<◌, ℕ, length};
ghost use Rattle.std.specs.Bool.{OnTrue, OnFalse};
ghost use Rattle.flat_slots.specs.Slots.{row_at};

use flat_slots::SlotTable;

/// The most attributes that a symbol may have.
const MOST: usize = 256;

/// Whether each symbol has at most 256 attributes.
pub fn are_few(table: &SlotTable) -> bool
    ensures few { OnTrue result ((x : ℕ) → length (row_at table.now.rows x) ≤ 256) }
    ensures more { OnFalse result ((x : ℕ) × (256 < length (row_at table.now.rows x))) }
{
    for row in table.rows.as_slice() {
        if row.len() > MOST {
            return false;
        }
    }
    true
}
