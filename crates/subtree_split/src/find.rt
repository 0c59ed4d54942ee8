//! The nonterminal of a name.
ghost use Rattle.std.specs.Prelude.{◌≡◌, ◌<◌, ◌↔◌, length, All, IsTrue, IsErr, IfOk};
ghost use Rattle.lido_base.specs.declared.ids.SymId.{SymId as Symbol};
ghost use Rattle.subtree_split.specs.Named.{IsNonterminalNamed};

use crate::symbols::is_cell;
use flat_grammar::Flat;
use lido_base::{Strings, SymId};

/// No nonterminal has the name.
#[derive(Clone, Copy, Debug, PartialEq, Eq)]
pub struct UnknownSplit;

/// Whether the symbol is a nonterminal of this name. The name is compared first: all shapes tell whether a symbol is a cell.
fn is_named(flat: &Flat, strings: &Strings, name: &str, id: SymId) -> bool
    requires texts { All (λ symbol. symbol.name.0 < length strings.now) flat.now.symbols }
    requires symbol { id.0 < length flat.now.symbols }
    ensures yes { IsTrue result → IsNonterminalNamed flat.now.symbols flat.now.rules flat.now.shapes strings.now name.now id }
    ensures no { IsNonterminalNamed flat.now.symbols flat.now.rules flat.now.shapes strings.now name.now id → IsTrue result }
{
    let symbol = &flat.symbols.as_slice()[id.0 as usize];
    if strings.bytes(symbol.name) != name.as_bytes() {
        return false;
    }
    symbol.terminal.is_none() && !is_cell(flat, id)
}

/// The nonterminal of this name. `UnknownSplit` comes exactly where there is none. It takes no memory.
pub fn find_split(flat: &Flat, strings: &Strings, name: &str) -> Result<SymId, UnknownSplit>
    requires { All (λ symbol. symbol.name.0 < length strings.now) flat.now.symbols }
    ensures found { IfOk result (λ s. IsNonterminalNamed flat.now.symbols flat.now.rules flat.now.shapes strings.now name.now s) }
    ensures unknown { IsErr result → (s : Symbol)
        → IsNonterminalNamed flat.now.symbols flat.now.rules flat.now.shapes strings.now name.now s → ⊥ }
{
    for k in 0..flat.symbols.len() {
        let id = SymId(k as u16);
        if is_named(flat, strings, name, id) {
            return Ok(id);
        }
    }
    Err(UnknownSplit)
}
