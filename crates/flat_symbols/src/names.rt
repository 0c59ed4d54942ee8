//! The names of the attributes that the flat grammar adds.
ghost use Rattle.std.specs.Prelude.{◌≡◌, ◌++◌, ◌<◌, length, slice_get, Some, decimal, IfOk};
ghost use Rattle.lido_base.specs.Environment.{Environment};
ghost use Rattle.lido_base.specs.Texts.{Gains};
ghost use Rattle.lido_syntax.specs.Functions.{text_of};

use lido_base::{Decimal, Memory, StrId, Strings};
use std::alloc::{AllocError, Global};

/// The two texts behind one another.
fn joined(alloc: Global, front: &[u8], behind: &[u8]) -> Result<Vec<u8>, AllocError>
    ensures { IfOk result (λ text. text.items ≡ front.now ++ behind.now) }
{
    let mut text = front.to_vec(alloc)?;
    text.extend_from_slice(behind)?;
    Ok(text)
}

/// The text of an id, and the empty text where there is none.
fn text(strings: &Strings, id: StrId) -> &[u8]
    ensures { id.0 < length strings.now → slice_get strings.now id.0 ≡ Some result.now }
{
    if (id.0 as usize) < strings.len() {
        strings.bytes(id)
    } else {
        &[]
    }
}

/// The name that is made of a word and a number behind it.
pub fn numbered(
    alloc: Global,
    strings: &mut Strings,
    front: &[u8],
    number: u64,
) -> Result<StrId, Memory>
    ensures name { IfOk result (λ id. (env : Environment) → Gains strings.new env.texts → text_of env id.0 ≡ front.now ++ decimal number) }
    ensures kept { Gains strings.old strings.new }
{
    let digits = Decimal::of(number);
    let text = joined(alloc, front, digits.as_bytes())?;
    let id = strings.intern(&text)?;
    Ok(id)
}

/// The name that is made of a word and a name behind it, which is an id of these texts.
pub fn named_after(
    alloc: Global,
    strings: &mut Strings,
    front: &[u8],
    name: StrId,
) -> Result<StrId, Memory>
    ensures name { IfOk result (λ id. (env : Environment) → name.0 < length strings.old → Gains strings.new env.texts
        → text_of env id.0 ≡ front.now ++ text_of env name.0) }
    ensures kept { Gains strings.old strings.new }
{
    let text = joined(alloc, front, text(strings, name))?;
    let id = strings.intern(&text)?;
    Ok(id)
}
