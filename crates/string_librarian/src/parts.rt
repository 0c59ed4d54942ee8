//! What is printed of a piece, part by part.
ghost use Rattle.std.specs.Prelude.{◌≡◌, [], length, slice_get, unwrap_or};
ghost use Rattle.string_librarian.specs.Parts.{parts_of as parts_for};

use lido_base::{Part, PartPiece, Patterns, Piece, StrId, Strings};

/// The first argument, printed whatever the others are.
const FIRST: Part = Part {
    piece: PartPiece::Arg(1),
    brace: false,
};

/// The second argument, printed whatever the others are.
const SECOND: Part = Part {
    piece: PartPiece::Arg(2),
    brace: false,
};

/// The parts of what has one argument.
static ONE: [Part; 1] = [FIRST];

/// The parts of two texts in a row.
static BOTH: [Part; 2] = [FIRST, SECOND];

/// The parts that print a piece: a pattern's own, and one for each argument of the others. A pattern that isn't there has none.
pub fn parts_of(patterns: &Patterns, piece: Piece) -> &[Part]
    ensures { result.now ≡ parts_for patterns.now.list piece }
{
    match piece {
        Piece::Numb => &ONE,
        Piece::AsIs => &ONE,
        Piece::Seq => &BOTH,
        Piece::Pattern(k) => match patterns.list.as_slice().get(k as usize) {
            Some(pattern) => pattern.parts.as_slice(),
            None => &[],
        },
    }
}

/// The bytes of a string, and none where the id has no text.
pub fn bytes_of(strings: &Strings, id: StrId) -> &[u8]
    ensures { result.now ≡ unwrap_or (slice_get strings.now id.0) [] }
{
    if (id.0 as usize) < strings.len() {
        strings.bytes(id)
    } else {
        &[]
    }
}
