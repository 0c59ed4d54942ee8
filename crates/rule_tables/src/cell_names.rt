//! The names of cells and of their rules.
ghost use Rattle.std.specs.Prelude.{◌≡◌, ◌++◌, ◌<◌, codes, length, IfOk};
ghost use Rattle.lido_base.specs.Environment.{Environment};
ghost use Rattle.lido_base.specs.Texts.{Gains};
ghost use Rattle.lido_syntax.specs.Functions.{text_of};

use lido_base::{Memory, StrId, Strings};
use std::alloc::{AllocError, Global};

/// The two texts with `$` between them.
fn joined(alloc: Global, front: &[u8], behind: &[u8]) -> Result<Vec<u8>, AllocError>
    ensures { IfOk result (λ text. text.items ≡ front.now ++ codes "$" ++ behind.now) }
{
    let mut text = front.to_vec(alloc)?;
    text.push(b'$')?;
    text.extend_from_slice(behind)?;
    Ok(text)
}

/// The name of a list's cell: that of the rule, `$` in front.
pub fn cell_name(alloc: Global, strings: &mut Strings, rule: StrId) -> Result<StrId, Memory>
    requires { rule.0 < length strings.old }
    ensures name { IfOk result (λ id. (env : Environment) → Gains strings.new env.texts → text_of env id.0 ≡ codes "$" ++ text_of env rule.0) }
    ensures kept { Gains strings.old strings.new }
{
    let text = joined(alloc, &[], strings.bytes(rule))?;
    let id = strings.intern(&text)?;
    Ok(id)
}

/// The name of a cell's rule for an element: that of the list's rule, `$` and that of the element.
pub fn link_name(
    alloc: Global,
    strings: &mut Strings,
    rule: StrId,
    element: StrId,
) -> Result<StrId, Memory>
    requires rule { rule.0 < length strings.old }
    requires element { element.0 < length strings.old }
    ensures name { IfOk result (λ id. (env : Environment) → Gains strings.new env.texts
        → text_of env id.0 ≡ text_of env rule.0 ++ codes "$" ++ text_of env element.0) }
    ensures kept { Gains strings.old strings.new }
{
    let text = joined(alloc, strings.bytes(rule), strings.bytes(element))?;
    let id = strings.intern(&text)?;
    Ok(id)
}

/// The name of a cell's rule for the end: that of the list's rule, `$` behind it.
pub fn end_name(alloc: Global, strings: &mut Strings, rule: StrId) -> Result<StrId, Memory>
    requires { rule.0 < length strings.old }
    ensures name { IfOk result (λ id. (env : Environment) → Gains strings.new env.texts → text_of env id.0 ≡ text_of env rule.0 ++ codes "$") }
    ensures kept { Gains strings.old strings.new }
{
    let text = joined(alloc, strings.bytes(rule), &[])?;
    let id = strings.intern(&text)?;
    Ok(id)
}
