//! The words that the reader knows by their texts: the functions that operators, IF, ORDER and PTGNULL stand for, and the words of
//! messages.
ghost use Rattle.std.specs.Prelude.{◌≡◌, ◌+◌, ◌≤◌, List, ℕ, map, length, IfOk, OnOk};
ghost use Rattle.std.specs.Borrow.{Bor};
ghost use Rattle.lido_lexer.specs.Lexing.{Gains};
ghost use Rattle.lido_lexer.specs.Tables.{interned};
ghost use Rattle.lido_computations.specs.Functions.{HasAll, IsAmong, Keeps, known_words};
ghost use Rattle.lido_reader.specs.Items.{id_in};
ghost use Rattle.lido_reader.specs.Specification.{IsLater, words_in};

use lido_base::{Memory, StrId, Strings};
use lido_computations::messages::MessageWords;

/// The words, in their order.
const KNOWN_WORDS: [&[u8]; 23] = [
    b"OR",
    b"AND",
    b"EQ",
    b"NE",
    b"LT",
    b"LE",
    b"GT",
    b"GE",
    b"ADD",
    b"SUB",
    b"MUL",
    b"DIV",
    b"MOD",
    b"NEG",
    b"NOT",
    b"IF",
    b"ORDER",
    b"PTGNULL",
    b"message",
    b"NOTE",
    b"WARNING",
    b"ERROR",
    b"COORDREF",
];

/// Makes these words texts, in their order.
fn intern_all(strings: &mut Strings, names: &[&[u8]]) -> Result<(), Memory>
    ensures table { OnOk result (strings.new ≡ interned strings.old (map (λ (name : Bor (List ℕ)). name.now) names.now)) }
    ensures kept { Gains strings.old strings.new }
{
    for name in names {
        strings.intern(*name)?;
    }
    Ok(())
}

/// Makes all known words texts, so that `read_spec` adds the names of rules alone. `Err` is want of memory; some of the words may be
/// texts then.
pub fn intern_known_words(strings: &mut Strings) -> Result<(), Memory>
    ensures table { OnOk result (strings.new ≡ interned strings.old known_words) }
    ensures there { OnOk result (HasAll known_words strings.new) }
    ensures kept { Gains strings.old strings.new }
{
    intern_all(strings, &KNOWN_WORDS)
}

/// The id of a word, which is made a text if it is none yet.
fn word_id(strings: &mut Strings, word: &[u8]) -> Result<StrId, Memory>
    ensures id { IfOk result (λ id. (texts : List (List ℕ)) → IsLater strings.new texts → id_in texts word.now ≡ id) }
    ensures kept { Gains strings.old strings.new }
    ensures same { IsAmong known_words word.now → Keeps strings.old strings.new }
    ensures few { length strings.new ≤ length strings.old + 1 }
{
    let id = strings.intern(word)?;
    Ok(id)
}

/// The ids of the words of messages, which are made texts if they are none yet.
pub(crate) fn message_words(strings: &mut Strings) -> Result<MessageWords, Memory>
    ensures words { IfOk result (λ words. (texts : List (List ℕ)) → IsLater strings.new texts → words_in texts ≡ words) }
    ensures kept { Gains strings.old strings.new }
    ensures same { Keeps strings.old strings.new }
    ensures few { length strings.new ≤ length strings.old + 5 }
{
    let message = word_id(strings, b"message")?;
    let note = word_id(strings, b"NOTE")?;
    let warning = word_id(strings, b"WARNING")?;
    let error = word_id(strings, b"ERROR")?;
    let coordref = word_id(strings, b"COORDREF")?;
    Ok(MessageWords {
        message,
        note,
        warning,
        error,
        coordref,
    })
}
