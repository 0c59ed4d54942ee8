//! The table and its desks, as contracts see them.
use crate::plays::{Owned, View};
use atomic_table::{Seat, Table};
use std::alloc::Global;
use std::marker::Model;

/// A table in which threads leave values by key.
#[derive(Drop)]
pub struct Boundary {
    pub(crate) table: Table<(), View, u64, Owned, Global>,
}

impl Model for Boundary {
    ghost use Rattle.std.specs.Prelude.{◌≡◌, ◌+◌};
    ghost use Rattle.atomic_table.specs.Seated.{TableId, table_id_coded};

    ghost Value = { TableId };

    ghost coded = { table_id_coded };

    ghost view = { λ b. b.table.shared.table_id };

    ghost invariant = { λ b. (b.table.shared.key + 1 ≡ b.table.shared.table_id.words) × (b.table.shared.table_id.slots ≡ 0) };
}

/// What a thread puts and gets with. It has no bytes: what it knows is seen by contracts alone.
#[derive(Drop)]
pub struct Desk {
    pub(crate) seat: Seat<(), View>,
}

impl Model for Desk {
    ghost use Rattle.std.specs.Prelude.{◌≡◌, []};
    ghost use Rattle.boundary_table.specs.Desk.{Held, IsTableOf};

    ghost Value = { Held };

    ghost view = { λ d. record { table = d.seat.table_id; view = d.seat.me.0 } };

    ghost invariant = { λ d. (d.seat.me.0.stage ≡ 1) × (d.seat.me.1 ≡ []) × IsTableOf d.seat.table_id d.seat.me.0.contents };
}
