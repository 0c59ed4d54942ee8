//! Calls of functions in the flat grammar.
ghost use Rattle.std.specs.Prelude.{◌≡◌};
ghost use Rattle.lido_base.specs.Environment.{Environment};
ghost use Rattle.lido_syntax.specs.Functions.{text_of};
ghost use Rattle.rule_tables.specs.Copies.{call as call_of};
ghost use Rattle.flat_copies.specs.Ops.{IsKnown};

use crate::ops::Ops;
use flat_grammar::FlatExpr;
use lido_base::{List, StrId, Strings, Value};

/// The text of an id; a text without bytes where there is none.
fn text(strings: &Strings, id: StrId) -> &[u8]
    ensures { (env : Environment) → env.texts ≡ strings.now → result.now ≡ text_of env id.0 }
{
    if (id.0 as usize) < strings.len() {
        strings.bytes(id)
    } else {
        &[]
    }
}

/// The call of a name with these arguments, asked for by the computation of that number.
pub fn call(strings: &Strings, ops: &Ops, comp: u16, name: StrId, args: List<FlatExpr>) -> FlatExpr
    ensures { (env : Environment) → env.texts ≡ strings.now → IsKnown env ops.now name.0 → result ≡ call_of env comp name.0 args }
{
    let text = text(strings, name);
    if text == b"IF".as_slice() {
        return FlatExpr::If(args);
    }
    if text == b"ORDER".as_slice() {
        return FlatExpr::Order(args);
    }
    match ops.get(name) {
        Some(op) => FlatExpr::Apply { comp, op, args },
        None => FlatExpr::Value(Value::Void),
    }
}
