//! Texts handed over piece by piece, with a count of their bytes.
ghost use Rattle.std.specs.Prelude.{◌≡◌, ◌<◌, length, All};
ghost use Rattle.std.specs.List.{flat_map};
ghost use Rattle.order_report.specs.Lines.{IsName, name_of, path_of, line};
ghost use Rattle.order_report.specs.Names.{texts_in};
ghost use Rattle.order_report.specs.Writing.{Extends, Puts};

use lido_base::{Sink, StrId, Strings, WriteFault, write_all};

/// The text of an id.
pub fn name(strings: Option<&Strings>, id: StrId) -> &[u8]
    requires { IsName (texts_in strings) id }
    ensures { result.now ≡ name_of (texts_in strings.entry) id }
{
    match strings {
        Some(strings) => strings.bytes(id),
        None => &[],
    }
}

/// Hands over a piece behind `done` bytes, and says how many bytes that makes.
fn put<K: Sink>(sink: &mut K, done: u64, piece: &[u8]) -> Result<u64, WriteFault>
    ensures { Puts done piece.now (K.written sink.old) (K.written sink.new) (K.faults sink.old) (K.faults sink.new) result }
{
    match write_all(sink, piece) {
        Ok(()) => Ok(done.saturating_add(piece.len() as u64)),
        Err(fault) => Err(WriteFault {
            written: done.saturating_add(fault.written),
        }),
    }
}

/// Hands over pieces, one after another.
fn put_pieces<K: Sink>(sink: &mut K, done: u64, pieces: &[&[u8]]) -> Result<u64, WriteFault>
    ensures { Puts done (flat_map (λ piece. piece.now) pieces.now) (K.written sink.old) (K.written sink.new) (K.faults sink.old) (K.faults sink.new) result }
{
    let mut count = done;
    for piece in pieces {
        match put(sink, count, piece) {
            Ok(more) => count = more,
            Err(fault) => return Err(fault),
        }
    }
    Ok(count)
}

/// Hands over the names of a path, a space before each.
fn put_path<K: Sink>(
    sink: &mut K,
    done: u64,
    strings: Option<&Strings>,
    path: &[StrId],
) -> Result<u64, WriteFault>
    requires { All (IsName (texts_in strings)) path.now }
    ensures { Puts done (path_of (texts_in strings.entry) path.now) (K.written sink.old) (K.written sink.new) (K.faults sink.old) (K.faults sink.new) result }
{
    let mut count = done;
    for id in path {
        match put_pieces(sink, count, &[b" ", name(strings, *id)]) {
            Ok(more) => count = more,
            Err(fault) => return Err(fault),
        }
    }
    Ok(count)
}

/// Hands over a line: the program's name, words, the names of a path, and a line feed.
pub fn write_line<K: Sink>(
    sink: &mut K,
    strings: Option<&Strings>,
    words: &[&[u8]],
    path: &[StrId],
) -> Result<u64, WriteFault>
    requires { All (IsName (texts_in strings)) path.now }
    ensures { Puts 0 (line (flat_map (λ word. word.now) words.now) (path_of (texts_in strings.entry) path.now)) (K.written sink.old) (K.written sink.new) (K.faults sink.old) (K.faults sink.new) result }
{
    let named = match put(sink, 0, b"lido: ") {
        Ok(count) => count,
        Err(fault) => return Err(fault),
    };
    let worded = match put_pieces(sink, named, words) {
        Ok(count) => count,
        Err(fault) => return Err(fault),
    };
    match put_path(sink, worded, strings, path) {
        Ok(count) => put(sink, count, b"\n"),
        Err(fault) => Err(fault),
    }
}

/// Hands over one piece more, unless the sink has failed.
pub fn add<K: Sink>(
    sink: &mut K,
    so_far: Result<u64, WriteFault>,
    piece: &[u8],
) -> Result<u64, WriteFault>
    ensures { Extends piece.now (K.written sink.old) (K.faults sink.old) so_far (K.written sink.new) (K.faults sink.new) result }
{
    match so_far {
        Ok(done) => put(sink, done, piece),
        Err(fault) => Err(fault),
    }
}

/// Hands over some pieces more, unless the sink has failed.
pub fn add_pieces<K: Sink>(
    sink: &mut K,
    so_far: Result<u64, WriteFault>,
    pieces: &[&[u8]],
) -> Result<u64, WriteFault>
    ensures { Extends (flat_map (λ piece. piece.now) pieces.now) (K.written sink.old) (K.faults sink.old) so_far
        (K.written sink.new) (K.faults sink.new) result }
{
    match so_far {
        Ok(done) => put_pieces(sink, done, pieces),
        Err(fault) => Err(fault),
    }
}
