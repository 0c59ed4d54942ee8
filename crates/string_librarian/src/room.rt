//! Rooms: what is kept of the texts that were built, none of them copied.
ghost use Rattle.std.specs.Prelude.{◌≡◌, ◌+◌, ◌-◌, ◌≤◌, [], ◌∷◌, ◌++◌, IfOk, List, ℕ, Some, map, length, slice_get};
ghost use Rattle.std.specs.Prelude.{slice_set, vec_len, vec_capacity};
ghost use Rattle.lido_base.specs.declared.value.Desc.{Desc as Descriptor};
ghost use Rattle.lido_base.specs.declared.pattern.Pattern.{Pattern as TextPattern};
ghost use Rattle.string_librarian.specs.Parts.{argument_of};
ghost use Rattle.string_librarian.specs.Rooms.{Deposit as Deposited, RoomState, cells_of};
ghost use Rattle.string_librarian.specs.Cells.{cells_for};
ghost use Rattle.string_librarian.specs.Denotes.{Denotes, Makes};
ghost use Rattle.string_librarian.specs.declared.room.Cell.TheVariants.{Arg};

use lido_base::{Desc, Memory, Piece, Value};
use std::alloc::Global;
use std::marker::Model;

/// How a deposit begins: what makes its text, the text's length in bytes, and how many arguments follow.
#[derive(Clone, Copy)]
struct Head {
    piece: Piece,
    len: u32,
    args: u32,
}

/// A deposit is its head and, behind it, its arguments.
#[derive(Clone, Copy)]
enum Cell {
    Deposit(Head),
    Arg(Value),
}

/// A list of deposits with space for more. A deposit uses a cell, and one for each of its arguments. Contracts see the room's
/// number, its deposits and how many cells are left.
#[derive(Drop)]
pub struct Room {
    cells: Vec<Cell>,
    space: u32,
    number: u16,
}

impl Model for Room {
    ghost use Rattle.string_librarian.specs.Rooms.{RoomState};

    ghost Value = { RoomState };

    ghost use Rattle.string_librarian.specs.Cells.{state_of, IsKept};

    ghost view = { state_of };

    ghost invariant = { IsKept };
}

impl Room {
    /// An empty room with space for so many cells. An `Err` is want of memory.
    pub fn with_space(alloc: Global, number: u16, cells: u32) -> Result<Room, Memory>
        ensures { IfOk result (λ room. room ≡ record { number = number; deposits = []; space = cells }) }
    {
        Ok(Room {
            cells: Vec::with_capacity(alloc, cells as usize)?,
            space: cells,
            number,
        })
    }

    /// Adds a deposit at the end and gives its descriptor. It takes no memory. Wherever the piece makes a text of `len` bytes
    /// of the arguments, this is the text that the descriptor denotes.
    pub fn deposit(&mut self, piece: Piece, args: &[Value], len: u32) -> Desc
        requires { 1 + length args.now ≤ self.old.space }
        ensures room { self.new ≡ record {
          number = self.old.number;
          deposits = self.old.deposits ++ (record { piece = piece; args = args.now; len = len }) ∷ [];
          space = self.old.space - (1 + length args.now);
        } }
        ensures descriptor { result ≡ record { room = self.old.number; node = 1 + cells_of self.old.deposits; len = len } }
        ensures denotes { (texts : List (List ℕ)) (patterns : List TextPattern) (rooms : List RoomState) (bytes : List ℕ)
            → slice_get rooms self.new.number ≡ Some self.new → Makes texts patterns rooms piece args.now bytes
            → length bytes ≡ len → Denotes texts patterns rooms result bytes }
        ensures earlier { (texts : List (List ℕ)) (patterns : List TextPattern) (rooms : List RoomState) (d : Descriptor) (bytes : List ℕ)
            → slice_get rooms self.old.number ≡ Some self.old → Denotes texts patterns rooms d bytes
            → Denotes texts patterns (slice_set rooms self.old.number self.new) d bytes }
    {
        let node = self.cells.len() as u32 + 1;
        let count = args.len() as u32;
        self.cells.push_reserved(Cell::Deposit(Head {
            piece,
            len,
            args: count,
        }));
        push_args(&mut self.cells, args);
        self.space -= 1 + count;
        Desc {
            room: self.number,
            node,
            len,
        }
    }
}

impl Room {
    /// The cell so many behind the head of the deposit at this place.
    fn cell(&self, node: u32, behind: u32) -> Option<Cell>
        ensures { (before after : List Deposited) (d : Deposited) → self.now.deposits ≡ before ++ d ∷ after → node ≡ 1 + cells_of before
            → result ≡ slice_get (cells_for (d ∷ after)) behind }
    {
        if node == 0 {
            return None;
        }
        match self.cells.get((node as usize - 1) + behind as usize) {
            Some(cell) => Some(*cell),
            None => None,
        }
    }

    /// What makes the text of the deposit at this place.
    pub fn piece(&self, node: u32) -> Option<Piece>
        ensures { (before after : List Deposited) (d : Deposited) → self.now.deposits ≡ before ++ d ∷ after → node ≡ 1 + cells_of before
            → result ≡ Some d.piece }
    {
        match self.cell(node, 0) {
            Some(Cell::Deposit(head)) => Some(head.piece),
            _ => None,
        }
    }

    /// How many arguments the deposit at this place has.
    fn count(&self, node: u32) -> u32
        ensures { (before after : List Deposited) (d : Deposited) → self.now.deposits ≡ before ++ d ∷ after → node ≡ 1 + cells_of before
            → result ≡ length d.args }
    {
        match self.cell(node, 0) {
            Some(Cell::Deposit(head)) => head.args,
            _ => 0,
        }
    }

    /// The argument of this number, from 1, of the deposit at this place.
    pub fn argument(&self, node: u32, number: u32) -> Value
        ensures { (before after : List Deposited) (d : Deposited) → self.now.deposits ≡ before ++ d ∷ after → node ≡ 1 + cells_of before
            → result ≡ argument_of d.args number }
    {
        if number == 0 || self.count(node) < number {
            return Value::Void;
        }
        match self.cell(node, number) {
            Some(Cell::Arg(value)) => value,
            _ => Value::Void,
        }
    }
}

/// Adds the arguments at the end.
fn push_args(cells: &mut Vec<Cell>, args: &[Value])
    requires { vec_len cells.old + length args.now ≤ vec_capacity cells.old }
    ensures items { cells.new.items ≡ cells.old.items ++ map Arg args.now }
    ensures capacity { vec_capacity cells.new ≡ vec_capacity cells.old }
{
    for arg in args {
        cells.push_reserved(Cell::Arg(*arg));
    }
}
