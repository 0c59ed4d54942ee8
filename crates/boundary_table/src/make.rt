//! Making a table with its desks.
ghost use Rattle.std.specs.Prelude.{◌≡◌, ◌<◌, ◌*◌, ◌+◌, [], length, vec_len, IfOk, All};
ghost use Rattle.lido_base.specs.Ranges.{IsInRange};
ghost use Rattle.boundary_table.specs.Rule.{blank, opened};
ghost use Rattle.boundary_table.specs.Desk.{desk_of};

use crate::desk::{Boundary, Desk};
use crate::plays::{Choice, Copied, Open, Owned, View};
use atomic_table::{Seat, Table};
use lido_base::{Contents, Memory};
use std::alloc::Global;
use std::marker::Brand;

type Words = Table<(), View, u64, Owned, Global>;

// Picks the contents of a table that has none.
fn open<J: Choice, C: Contents>(table: &Words, seat: &mut Seat<(), View>, of: &C) -> Seat<(), View>
    requires seat { (seat.old.table_id ≡ table.now.shared.table_id) × (seat.old.me ≡ (blank, [])) }
    requires words { table.now.shared.table_id.words ≡ table.now.shared.key + 1 }
    requires keys { table.now.shared.key ≡ 2 * length J.chosen }
    ensures { (result.table_id ≡ table.now.shared.table_id) × (result.me ≡ (opened J.chosen J.owners, [])) }
{
    let _ = of;
    table.shared.split_seat::<Open<J>>(seat)
}

fn first_desk(seat: Seat<(), View>) -> Desk
    requires stage { (seat.me.0.stage ≡ 1) × (seat.me.1 ≡ []) }
    requires words { seat.table_id.words ≡ 2 * length seat.me.0.contents + 1 }
    requires in_range { All IsInRange seat.me.0.contents }
    ensures { result ≡ record { table = seat.table_id; view = seat.me.0 } }
{
    Desk { seat }
}

impl Boundary {
    fn copy(&self, desk: &mut Desk) -> Desk
        requires table { desk.old.table ≡ self.now }
        requires none_yet { desk.old.view.numbers ≡ [] }
        ensures { (result ≡ desk.old) × (desk.new ≡ desk.old) }
    {
        let seat = self.table.shared.split_seat::<Copied>(&mut desk.seat);
        Desk { seat }
    }

    /// A table in which nothing is stored, with as many desks, none of which knows a key or has a number.
    ///
    /// # Errors
    ///
    /// `Memory` where memory ran out.
    pub fn new<C: Contents>(
        alloc: Global,
        of: &C,
        desks: u32,
    ) -> Result<(Boundary, Vec<Desk>), Memory>
        requires desks { 0 < desks }
        ensures count { IfOk result (λ r. vec_len r.1 ≡ desks) }
        ensures fresh { IfOk result (λ r. All (λ d. d ≡ desk_of r.0 (C.contents of.now) (C.owners of.now)) r.1.items) }
    {
        let code_words = 2 * of.keys() as usize;
        let words = vec![in alloc; 0u64; code_words + 1]?;
        let (table, mut blank) = Table::of_words(alloc, words.as_slice(), &(code_words as u64))?;
        let first = open::<Brand, C>(&table, &mut blank, of);
        let mut desk = first_desk(first);
        let boundary = Boundary { table };
        let mut all = Vec::with_capacity(alloc, desks as usize)?;
        for _ in 1..desks {
            all.push(boundary.copy(&mut desk))?;
        }
        all.push(desk)?;
        Ok((boundary, all))
    }
}
