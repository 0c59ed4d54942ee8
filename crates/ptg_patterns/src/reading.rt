//! Marks that are patterns, read.
ghost use Rattle.std.specs.Prelude.{◌≡◌, false, ◌∷◌, [], ◌<◌, ◌≤◌, List as Sequence, Some, None, length, IfOk, IfErr, IfSome, MatchOption};
ghost use Rattle.ptg_patterns.specs.declared.written.Item.{Item as ItemOf};
ghost use Rattle.ptg_patterns.specs.declared.written.Written.{Written as WrittenOf};
ghost use Rattle.ptg_patterns.specs.declared.marks.Mark.{Mark as MarkOf};
ghost use Rattle.ptg_patterns.specs.Fronts.{content_front, item_front, head_front};
ghost use Rattle.ptg_patterns.specs.Language.{type_in_front, behind_type, IsItems, IsWritten};

use crate::PtgFault;
use crate::marks::Mark;
use crate::written::{Content, Item, Point, Written};
use lido_base::{List, StrId, ValueType};
use std::alloc::Global;

/// The next mark, and those behind it.
fn next(marks: &[Mark]) -> Option<(Mark, &[Mark])>
    ensures { MatchOption result (marks.now ≡ []) (λ x. marks.now ≡ x.0 ∷ x.1.now) }
{
    match marks {
        [mark, rest @ ..] => Some((*mark, rest)),
        [] => None,
    }
}

/// The type that a word behind a point gives it.
fn type_in_front(marks: &[Mark]) -> ValueType
    ensures { result ≡ type_in_front marks.now }
{
    match next(marks) {
        Some((Mark::IntWord, _)) => ValueType::Int,
        Some((Mark::StringWord, _)) => ValueType::Str,
        _ => ValueType::Text,
    }
}

/// What stands behind that word, if there is one.
fn behind_type(marks: &[Mark]) -> &[Mark]
    ensures rest { result.now ≡ behind_type marks.now }
    ensures shorter { length result.now ≤ length marks.now }
{
    match next(marks) {
        Some((Mark::IntWord, behind)) => behind,
        Some((Mark::StringWord, behind)) => behind,
        _ => marks,
    }
}

/// A point, by its place, its number, and what stands behind these.
fn point(at: u32, number: Option<u32>, behind: &[Mark]) -> (Content, &[Mark])
    ensures point { result.0 ≡ Content.Point (record { at = at; number = number; kind = type_in_front behind.now }) }
    ensures rest { result.1.now ≡ behind_type behind.now }
    ensures shorter { length result.1.now ≤ length behind.now }
{
    let point = Point {
        at,
        number,
        kind: type_in_front(behind),
    };
    (Content::Point(point), behind_type(behind))
}

/// The string or the point in front, and what is left.
fn content_front(marks: &[Mark]) -> Option<(Content, &[Mark])>
    ensures front { MatchOption result (content_front marks.now ≡ None) (λ x. content_front marks.now ≡ Some (x.0, x.1.now)) }
    ensures shorter { IfSome result (λ x. length x.1.now < length marks.now) }
{
    match next(marks) {
        Some((Mark::Fixed(id), behind)) => Some((Content::Text(id), behind)),
        Some((Mark::Bare(at), behind)) => Some(point(at, None, behind)),
        Some((Mark::Numbering(at), behind)) => match next(behind) {
            Some((Mark::Number(number), behind)) => Some(point(at, Some(number), behind)),
            _ => None,
        },
        _ => None,
    }
}

/// Whether a brace is open behind the brace or the item in front, the item, and what is left.
fn item_front(brace: bool, marks: &[Mark]) -> Option<(bool, Option<Item>, &[Mark])>
    ensures front { MatchOption result (item_front brace marks.now ≡ None) (λ x. item_front brace marks.now ≡ Some (x.0, x.1, x.2.now)) }
    ensures shorter { IfSome result (λ x. length x.2.now < length marks.now) }
{
    match next(marks) {
        Some((Mark::BraceOpen, behind)) => Some((true, None, behind)),
        Some((Mark::BraceClose, behind)) => Some((false, None, behind)),
        _ => match content_front(marks) {
            Some((content, behind)) => Some((brace, Some(Item { content, brace }), behind)),
            None => None,
        },
    }
}

/// The items of a pattern, and what stands behind them.
fn items(alloc: Global, marks: &[Mark]) -> Result<(Vec<Item>, &[Mark]), PtgFault>
    ensures items { IfOk result (λ x. (items : Sequence ItemOf) (rest : Sequence MarkOf) (patterns : Sequence WrittenOf)
        → IsItems false marks.now items rest → IsWritten rest patterns → (items ≡ x.0.items) × (rest ≡ x.1.now)) }
    ensures shorter { IfOk result (λ x. length x.1.now ≤ length marks.now) }
    ensures memory { IfErr result (λ e. e ≡ PtgFault.Memory) }
{
    let mut found = Vec::new(alloc);
    let mut brace = false;
    let mut rest = marks;
    while let Some((next_brace, item, behind)) = item_front(brace, rest) {
        if let Some(item) = item {
            found.push(item)?;
        }
        brace = next_brace;
        rest = behind;
    }
    Ok((found, rest))
}

/// The place and the name of the pattern in front, and what stands behind its colon.
fn head_front(marks: &[Mark]) -> Option<(u32, StrId, &[Mark])>
    ensures front { MatchOption result (head_front marks.now ≡ None) (λ x. head_front marks.now ≡ Some (x.0, x.1, x.2.now)) }
    ensures shorter { IfSome result (λ x. length x.2.now < length marks.now) }
{
    match next(marks) {
        Some((Mark::Name(at, id), behind)) => match next(behind) {
            Some((Mark::Colon, behind)) => Some((at, id, behind)),
            _ => None,
        },
        _ => None,
    }
}

/// The patterns that the marks are.
pub fn written(alloc: Global, marks: &[Mark]) -> Result<Vec<Written>, PtgFault>
    ensures written { IfOk result (λ found. (patterns : Sequence WrittenOf) → IsWritten marks.now patterns → patterns ≡ found.items) }
    ensures memory { IfErr result (λ e. e ≡ PtgFault.Memory) }
{
    let mut found = Vec::new(alloc);
    let mut rest = marks;
    while let Some((at, name, behind)) = head_front(rest) {
        match items(alloc, behind) {
            Ok((items, left)) => {
                let items = List::from_vec(items);
                found.push(Written { at, name, items })?;
                rest = left;
            }
            Err(e) => return Err(e),
        }
    }
    Ok(found)
}
