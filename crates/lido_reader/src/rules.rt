//! RULE items.
ghost use Rattle.std.specs.Prelude.{◌≡◌, ◌+◌, ◌<◌, ◌≤◌, List, ℕ, length, IfOk, OnOk};
ghost use Rattle.lido_base.specs.Reading.{nothing};
ghost use Rattle.lido_lexer.specs.Lexing.{Gains};
ghost use Rattle.lido_reader.specs.Added.{Adds, AddsSome, first_names};
ghost use Rattle.lido_computations.specs.Messages.{IsComputationIn};
ghost use Rattle.lido_reader.specs.Items.{IsRule, called_in};
ghost use Rattle.lido_computations.specs.Phrases.{ReadsSeen};
ghost use Rattle.lido_reader.specs.Specification.{IsLater};

use crate::ReadSpecFault;
use crate::bodies::body;
use crate::right_sides::right_side;
use crate::rule_names::rule_name;
use lido_base::{List, Strings};
use lido_computations::messages::MessageWords;
use lido_computations::names::{keyword, name, sign};
use lido_computations::owners::Owner;
use lido_lexer::{Keyword, Sign, Token};
use lido_syntax::RuleItem;
use std::alloc::Global;

/// `"RULE" [name] ":" name ( "::=" {element} | "LISTOF" name {"|" name} ) body`, the rule of this number among the rules, its
/// computations numbered from `number`; and the number of the next computation.
pub(crate) fn rule<'a>(
    alloc: Global,
    tokens: &'a [Token],
    end: u32,
    strings: &mut Strings,
    words: MessageWords,
    place: u64,
    number: u32,
) -> Result<((RuleItem, u32), &'a [Token]), ReadSpecFault>
    ensures reads { (texts : List (List ℕ)) → IsLater strings.new texts
        → ReadsSeen (λ item. item) (IsRule (called_in texts) (IsComputationIn words texts) place number) nothing end tokens.now result }
    ensures kept { Gains strings.old strings.new }
    ensures few { length strings.new ≤ length strings.old + length tokens.now }
    ensures each { IfOk result (λ x. length strings.new + length x.1.now ≤ length strings.old + length tokens.now) }
    ensures shorter { IfOk result (λ x. length x.1.now < length tokens.now) }
    ensures table { OnOk result (Adds (first_names place tokens.now) strings.old strings.new) }
    ensures within { AddsSome (first_names place tokens.now) strings.old strings.new }
{
    let (word, behind_word) = keyword(tokens, end, Keyword::Rule)?;
    let (called, behind_name) = rule_name(alloc, behind_word, strings, place, word.from)?;
    let (_, behind_colon) = sign(behind_name, end, Sign::Colon)?;
    let (left, behind_left) = name(behind_colon, end)?;
    let (right, behind_right) = right_side(alloc, behind_left, end)?;
    let (computed, rest) = body(
        alloc,
        behind_right,
        end,
        strings,
        words,
        Owner::Rule,
        number,
    )?;
    let item = RuleItem {
        at: called.at,
        name: called.id,
        left,
        list: right.list,
        right: List::from_vec(right.elements),
        body: List::from_vec(computed.all),
    };
    Ok(((item, computed.next), rest))
}
