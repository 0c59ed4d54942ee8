//! Patterns from what is written.
ghost use Rattle.std.specs.Prelude.{◌≡◌, ◌⊎◌, ◌||◌, ◌+◌, ◌<◌, ◌≤◌, ◌^◌, ◌∷◌, [], ◌++◌, length, map, false, slice_get};
ghost use Rattle.std.specs.Prelude.{slice_index_or, unwrap_or, All, IfOk, IfErr, OnOk, List as Sequence};
ghost use Rattle.ptg_patterns.specs.declared.written.Point.{Point as PointOf};
ghost use Rattle.ptg_patterns.specs.Clashes.{CantStand, IsClash, IsMixed, IsMixedAt, is_reserved};
ghost use Rattle.ptg_patterns.specs.First.{HasNoClash};
ghost use Rattle.ptg_patterns.specs.Meaning.{parts, pattern_of, points};
ghost use Rattle.ptg_patterns.specs.Tables.{RecordsPoints};

use crate::PtgFault;
use crate::arguments::Arguments;
use crate::written::{Content, Item, Written};
use lido_base::{List, Part, PartPiece, Pattern, StrId, Strings};
use std::alloc::Global;

/// What an item prints; a point goes among the arguments.
fn part(arguments: &mut Arguments, item: Item) -> Result<Part, PtgFault>
    requires { arguments.old.count + 1 < 2 ^ 32 }
    ensures part { (before : Sequence PointOf) → RecordsPoints arguments.old before
        → IfOk result (λ part. part ∷ [] ≡ parts (length before + 1) (item ∷ [])) }
    ensures kept { (before : Sequence PointOf) → RecordsPoints arguments.old before
        → OnOk result (RecordsPoints arguments.new (before ++ points (item ∷ []))) }
    ensures agrees { (before : Sequence PointOf) → RecordsPoints arguments.old before
        → OnOk result (HasNoClash IsMixed before → HasNoClash IsMixed (before ++ points (item ∷ []))) }
    ensures fault { (before : Sequence PointOf) → RecordsPoints arguments.old before
        → IfErr result (λ e. (e ≡ PtgFault.Memory) ⊎ ((point : PointOf) × (points (item ∷ []) ≡ point ∷ [])
        × (e ≡ PtgFault.PtgMixed point.at) × IsMixed before point)) }
{
    let brace = item.brace;
    match item.content {
        Content::Text(id) => Ok(Part {
            piece: PartPiece::Fixed(id),
            brace,
        }),
        Content::Point(point) => match arguments.insert(point) {
            Ok(number) => Ok(Part {
                piece: PartPiece::Arg(number),
                brace,
            }),
            Err(e) => Err(e),
        },
    }
}

/// What the items print; their points go among the arguments, of which there are none yet.
fn parts_of(alloc: Global, items: &[Item], arguments: &mut Arguments) -> Result<Vec<Part>, PtgFault>
    requires few { length items.now + 1 < 2 ^ 32 }
    requires none { RecordsPoints arguments.old [] }
    ensures parts { IfOk result (λ found. found.items ≡ parts 1 items.now) }
    ensures kept { OnOk result (RecordsPoints arguments.new (points items.now)) }
    ensures agrees { OnOk result (HasNoClash IsMixed (points items.now)) }
    ensures fault { IfErr result (λ e. (e ≡ PtgFault.Memory) ⊎ IsMixedAt (points items.now) e) }
{
    let mut parts = Vec::new(alloc);
    for item in items {
        match part(arguments, *item) {
            Ok(part) => parts.push(part)?,
            Err(e) => return Err(e),
        }
    }
    Ok(parts)
}

/// The pattern that is written so.
fn pattern(alloc: Global, written: &Written) -> Result<Pattern, PtgFault>
    requires { length written.now.items + 1 < 2 ^ 32 }
    ensures pattern { IfOk result (λ pattern. pattern ≡ pattern_of written.now) }
    ensures agrees { OnOk result (HasNoClash IsMixed (points written.now.items)) }
    ensures fault { IfErr result (λ e. (e ≡ PtgFault.Memory) ⊎ IsMixedAt (points written.now.items) e) }
{
    let mut arguments = match Arguments::new(alloc) {
        Ok(arguments) => arguments,
        Err(e) => return Err(e),
    };
    let parts = match parts_of(alloc, written.items.as_slice(), &mut arguments) {
        Ok(parts) => parts,
        Err(e) => return Err(e),
    };
    match arguments.types(alloc) {
        Ok(types) => Ok(Pattern {
            name: written.name,
            args: List::from_vec(types),
            parts: List::from_vec(parts),
        }),
        Err(e) => Err(e),
    }
}

/// Whether every text has a function of this name.
fn is_reserved(name: &[u8]) -> bool
    ensures { result ≡ is_reserved name.now }
{
    name == b"Null".as_slice()
        || name == b"NULL".as_slice()
        || name == b"Numb".as_slice()
        || name == b"AsIs".as_slice()
        || name == b"Seq".as_slice()
        || name == b"Out".as_slice()
}

/// Whether the name is reserved, or used by the table of the names that are.
fn is_taken(strings: &Strings, used: &[bool], name: StrId) -> bool
    requires id { name.0 < length strings.now }
    requires size { length used.now ≡ length strings.now }
    ensures { result ≡ (is_reserved (unwrap_or (slice_get strings.now name.0) []) || slice_index_or used.now name.0 false) }
{
    is_reserved(strings.bytes(name)) || used[name.0 as usize]
}

/// The patterns that are written so.
pub fn patterns(
    alloc: Global,
    written: &[Written],
    strings: &Strings,
) -> Result<Vec<Pattern>, PtgFault>
    requires ids { All (λ w. w.name.0 < length strings.now) written.now }
    requires few { All (λ w. length w.items + 1 < 2 ^ 32) written.now }
    ensures patterns { IfOk result (λ found. found.items ≡ map pattern_of written.now) }
    ensures stand { OnOk result (HasNoClash (CantStand strings.now) written.now) }
    ensures agree { OnOk result (All (λ w. HasNoClash IsMixed (points w.items)) written.now) }
    ensures clash { IfErr result (λ e. (e ≡ PtgFault.Memory) ⊎ IsClash strings.now written.now e) }
{
    let mut used = vec![in alloc; false; strings.len()]?;
    let mut found = Vec::new(alloc);
    for one in written {
        if is_taken(strings, &used, one.name) {
            return Err(PtgFault::PtgDuplicate { at: one.at });
        }
        match pattern(alloc, one) {
            Ok(pattern) => found.push(pattern)?,
            Err(e) => return Err(e),
        }
        used[one.name.0 as usize] = true;
    }
    Ok(found)
}
