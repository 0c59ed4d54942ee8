//! A whole text of patterns is read.
ghost use Rattle.std.specs.Prelude.{◌≡◌, ◌⊎◌, ◌+◌, ◌≤◌, ◌<◌, length, All, Ok, Err, IfOk, IfErr};
ghost use Rattle.lido_base.specs.Phases.{Gives};
ghost use Rattle.lido_base.specs.Texts.{IsDistinctTexts, Gains};
ghost use Rattle.lido_lexer.specs.Lexing.{HasText};
ghost use Rattle.ptg_patterns.specs.Meaning.{HasItsArguments};
ghost use Rattle.ptg_patterns.specs.Texts.{IsTableBehind, PatternsFrom, PatternsOf, Reads, mark_place};

use crate::PtgFault;
use crate::marks::marks;
use crate::patterns::patterns;
use crate::reading::written;
use crate::syntax::first_misfit;
use lido_base::{List, Pattern, Patterns, Strings};
use lido_lexer::{Lexed, Token, lex_as_far};
use std::alloc::Global;

/// Where the token of this number begins; behind the last one, where the tokens of a text of this size end.
fn mark_place(size: u32, tokens: &[Token], stuck: Option<u32>, k: usize) -> u32
    ensures { result ≡ mark_place size tokens.now stuck k }
{
    match tokens.get(k) {
        Some(token) => token.from,
        None => stuck.unwrap_or(size),
    }
}

/// What the tokens of a text of this size say.
fn read_tokens(
    alloc: Global,
    size: u32,
    tokens: &[Token],
    stuck: Option<u32>,
    strings: &Strings,
) -> Result<Vec<Pattern>, PtgFault>
    requires few { length tokens.now ≤ 8388608 }
    requires ids { All (λ token. HasText (length strings.now) token.what) tokens.now }
    ensures patterns { IfOk result (λ found. Reads strings.now size tokens.now stuck (Ok found.items)) }
    ensures fault { IfErr result (λ e. (e ≡ PtgFault.Memory) ⊎ Reads strings.now size tokens.now stuck (Err e)) }
    ensures arguments { IfOk result (λ found. All (λ pattern. length pattern.args ≤ 64) found.items) }
    ensures parts { IfOk result (λ found. All HasItsArguments found.items) }
    ensures names { IfOk result (λ found. All (λ pattern. pattern.name.0 < length strings.now) found.items) }
{
    let marks = match marks(alloc, tokens, stuck) {
        Ok(marks) => marks,
        Err(e) => return Err(e),
    };
    if let Some(k) = first_misfit(&marks) {
        return Err(PtgFault::PtgSyntax {
            at: mark_place(size, tokens, stuck, k),
        });
    }
    let written = match written(alloc, &marks) {
        Ok(written) => written,
        Err(e) => return Err(e),
    };
    patterns(alloc, &written, strings)
}

/// The patterns of a PTG part, with its texts put into `strings`.
///
/// A part is a row of `Name: items`. An item is a string, an insertion point, or `{ .. }` around such items. A point is `$`, the
/// number of its argument, if it has one, directly behind that, and the type of the argument: `int`, `string`, or none, which is a
/// text (Eli's PTG manual; the words of its grammar are those of `lido_lexer`). Numbers go from 1 to 64, and a pattern has 64 points
/// without a number at most. Points without a number are the arguments 1, 2, and so on; a number that is skipped is that of a text
/// that isn't printed.
///
/// `PtgSyntax` comes exactly where the text is no such row, at the first byte of the first token with which it can't be one, or that
/// can't be formed, or at the text's length. Where it is one, the first pattern in order that can't stand behind those before it gives
/// `PtgDuplicate`, at its name, if that is `Null`, `NULL`, `Numb`, `AsIs`, `Seq` or `Out` or an earlier pattern's, or else `PtgMixed`,
/// at the first of its points that has a number where an earlier one has none, or has none where an earlier one has one, or has
/// another type than the first point for its argument. `Memory` is want of memory.
///
/// Texts that were in `strings` keep their ids whatever the answer; a text gains at most as many texts as it has bytes.
pub fn read_patterns(
    alloc: Global,
    text: &[u8],
    strings: &mut Strings,
) -> Result<Patterns, PtgFault>
    requires { length text.now ≤ 8388608 }
    // With the ids of `strings`, the answer is what the text says, and nothing else is.
    ensures gives { Gives (λ patterns. patterns.list) (PatternsOf strings.new text.now) PtgFault.Memory result }
    // What was in `strings` and the text decide of the answer, and of what is in `strings` now.
    ensures reads { Gives (λ patterns. patterns.list) (PatternsFrom strings.old text.now) PtgFault.Memory result }
    ensures table { IfOk result (λ _. IsTableBehind strings.old text.now strings.new) }
    ensures table_of_fault { IfErr result (λ e. (e ≡ PtgFault.Memory) ⊎ IsTableBehind strings.old text.now strings.new) }
    ensures arguments { IfOk result (λ patterns. All (λ pattern. length pattern.args ≤ 64) patterns.list) }
    // Each pattern's parts insert its arguments and no others.
    ensures parts { IfOk result (λ patterns. All HasItsArguments patterns.list) }
    ensures names { IfOk result (λ patterns. All (λ pattern. pattern.name.0 < length strings.new) patterns.list) }
    ensures distinct { IsDistinctTexts strings.new }
    ensures kept { Gains strings.old strings.new }
    ensures few { length strings.new ≤ length strings.old + length text.now }
{
    let lexed = lex_as_far(alloc, text, strings);
    // Ids tell texts apart.
    let _texts = strings.len();
    let Lexed { tokens, stuck } = match lexed {
        Ok(lexed) => lexed,
        Err(_) => return Err(PtgFault::Memory),
    };
    match read_tokens(alloc, text.len() as u32, &tokens, stuck, strings) {
        Ok(list) => Ok(Patterns {
            list: List::from_vec(list),
        }),
        Err(e) => Err(e),
    }
}
