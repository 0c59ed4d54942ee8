//! Putting and getting, drawing numbers, and joining desks.
ghost use Rattle.std.specs.Prelude.{◌≡◌, ◌≢◌, ◌<◌, [], ◌∷◌, length, slice_get, IfOk, IfErr, Some};
ghost use Rattle.boundary_table.specs.Desk.{Knows, IsOwner, GoesOn, StoresNothing, StoresKey};
ghost use Rattle.boundary_table.specs.Desk.{Missed, FoundCounter, FindsNothing, Owns, together};

use crate::codes::{decode, first_word, second_word};
use crate::desk::{Boundary, Desk};
use crate::plays::{Draw, Learn, Leave, Look, Meet};
use lido_base::Value;

/// The key's value isn't there yet, as far as this call could see.
#[derive(Clone, Copy, Debug, PartialEq, Eq)]
pub struct NotYet;

/// The table's counter was at another number than the one that was wanted.
#[derive(Clone, Copy, Debug, PartialEq, Eq)]
pub struct Taken {
    pub wanted: u32,
    pub found: u64,
}

impl Boundary {
    /// Draws the number k for a desk that has none, so that it stores the keys of region k. Numbers are drawn in order from 0.
    ///
    /// # Errors
    ///
    /// `Taken` where the table's counter was at another number. The desk then has no number.
    pub fn number(&self, desk: &mut Desk, k: u32) -> Result<(), Taken>
        requires table { desk.old.table ≡ self.now }
        requires none_yet { desk.old.view.numbers ≡ [] }
        ensures goes_on { GoesOn desk.old desk.new }
        ensures same { FindsNothing desk.old desk.new }
        ensures drawn { IfOk result (λ _. (desk.new.view.numbers ≡ k ∷ []) × FoundCounter desk.old desk.new k) }
        ensures taken { IfErr result (λ t. (t.wanted ≡ k) × (t.found ≢ k) × FoundCounter desk.old desk.new t.found) }
        ensures none_still { IfErr result (λ _. desk.new.view.numbers ≡ []) }
    {
        let counter = self.table.word_count() - 1;
        let wanted = u64::from(k);
        let shared = &self.table.shared;
        let found = shared.compare_exchange::<Draw>(&mut desk.seat, counter, wanted, wanted + 1);
        if found == wanted {
            Ok(())
        } else {
            Err(Taken { wanted: k, found })
        }
    }

    /// Leaves the key's value, which the desk then knows and has stored.
    pub fn put(&self, desk: &mut Desk, key: u32, value: Value)
        requires table { desk.old.table ≡ self.now }
        requires value { slice_get desk.old.view.contents key ≡ Some value }
        requires owner { IsOwner desk.old key }
        ensures goes_on { GoesOn desk.old desk.new }
        ensures known { Knows desk.new key }
        ensures stores { StoresKey desk.old desk.new key }
    {
        let word = 2 * key as usize;
        let shared = &self.table.shared;
        shared.store::<Leave>(&mut desk.seat, word, first_word(value));
        shared.store::<Leave>(&mut desk.seat, word + 1, second_word(value));
    }

    /// The key's value, if it is there.
    ///
    /// # Errors
    ///
    /// `NotYet` only where this call found that a part of the value wasn't stored, and never for a key that the desk knew.
    pub fn get(&self, desk: &mut Desk, key: u32) -> Result<Value, NotYet>
        requires table { desk.old.table ≡ self.now }
        requires key { key < length desk.old.view.contents }
        ensures goes_on { GoesOn desk.old desk.new }
        ensures stores { StoresNothing desk.old desk.new }
        ensures value { IfOk result (λ v. slice_get desk.old.view.contents key ≡ Some v) }
        ensures known { IfOk result (λ _. Knows desk.new key) }
        ensures not_yet { IfErr result (λ _. Missed desk.old desk.new key) }
    {
        let word = 2 * key as usize;
        let shared = &self.table.shared;
        let first = shared.load::<Look>(&mut desk.seat, word);
        if first == 0 {
            return Err(NotYet);
        }
        let second = shared.load::<Look>(&mut desk.seat, word + 1);
        if second == 0 {
            return Err(NotYet);
        }
        Ok(decode(first, second))
    }

    /// Joins two desks: the one that stays has what both know, have stored and drew.
    pub fn meet(&self, stays: &mut Desk, other: Desk)
        requires stays { stays.old.table ≡ self.now }
        requires other { other.table ≡ self.now }
        ensures joined { stays.new ≡ together stays.old other }
        ensures owns { Owns stays.new }
    {
        let shared = &self.table.shared;
        shared.join_seat::<Meet>(&mut stays.seat, other.seat);
        shared.load::<Learn>(&mut stays.seat, 0);
    }
}
