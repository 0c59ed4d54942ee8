//! The whole way from the text of a tree to its trees.
ghost use Rattle.std.specs.Prelude.{◌+◌, ◌≤◌, ℕ, List, length, IfOk};
ghost use Rattle.lido_base.specs.Phases.{Gives};
ghost use Rattle.lido_base.specs.Plain.{plain_tree};
ghost use Rattle.lido_lexer.specs.Lexing.{Gains};
ghost use Rattle.flat_grammar.specs.Fitting.{IsFitting, IsWithinLimits};
ghost use Rattle.flat_grammar.specs.FlatTrees.{IsFlatTree};
ghost use Rattle.tree_store.specs.declared.fault.TreeFault.{TreeFault};
ghost use Rattle.tree_reader.specs.WrittenTrees.{most_nodes};
ghost use Rattle.tree_reader.specs.Tables.{IsTableOf};
ghost use Rattle.tree_reader.specs.Whole.{WrittenOf, TreesOf};

use crate::scanner::scan;
use crate::writer::write_tree;
use flat_grammar::Flat;
use lido_base::Strings;
use std::alloc::Global;
use tree_flattener::flatten;
use tree_store::{Tree, TreeFault, Trees};

/// The written tree of a text.
#[tactic(auto, unfolding(crate::specs::Whole::WrittenOf, crate::specs::Scanning::Scanning))]
fn written_of(
    alloc: Global,
    text: &[u8],
    flat: &Flat,
    strings: &mut Strings,
) -> Result<Tree, TreeFault>
    requires { length text.now ≤ 8388608 }
    ensures gives { (later : List (List ℕ)) → Gains strings.new later
        → Gives (plain_tree later) (WrittenOf flat.now.symbols flat.now.rules flat.now.shapes flat.now.root strings.old text.now) TreeFault.Memory result }
    ensures fits { IfOk result (λ tree. IsFitting flat.now.symbols flat.now.rules flat.now.shapes flat.now.root (plain_tree strings.new tree)) }
    ensures few_nodes { IfOk result (λ tree. length tree ≤ most_nodes) }
    ensures table { IsTableOf strings.old text.now result strings.new }
    ensures few { length strings.new ≤ length strings.old + length text.now }
    ensures kept { Gains strings.old strings.new }
{
    let parts = match scan(alloc, text) {
        Ok(parts) => parts,
        Err(e) => return Err(e),
    };
    match write_tree(alloc, flat, strings, parts.as_slice()) {
        Ok(tree) => Ok(tree),
        Err(e) => Err(e),
    }
}

/// Reads a bracketed tree over a flat grammar: the written tree, its flat tree, and the written node of each flat node.
///
/// The text has at most 8,388,608 bytes. `TreeSyntax` stands at the first byte with which the text begins no tree, or at its length;
/// else the first fault from the left is answered: `UnknownRule` at a name, `WrongRoot` at the name of the first node, `WrongChild` at a child or
/// at the bracket where one is missing, `TooMany` nodes (above 1,048,576). Then come `TooMany` instances (above 4,194,304) and text cells (above
/// 16,777,216) of the flat tree. `Memory` is want of memory.
///
/// Names of rules are found among the texts that were in `strings`, which keep their ids whatever the answer. The strings of the tree are added
/// behind them, each once and in the order of the text. A fault leaves those in front of its place, and the name or the string that stands there: so
/// the name of an `UnknownRule` is among the texts too. `TreeSyntax` adds none. At most as many texts are added as the text has bytes.
pub fn read_tree(
    alloc: Global,
    text: &[u8],
    flat: &Flat,
    strings: &mut Strings,
) -> Result<Trees, TreeFault>
    requires { length text.now ≤ 8388608 }
    // Read with the texts of `strings`, now or at any later time, the trees are those of the text, and no others are.
    ensures gives { (later : List (List ℕ)) → Gains strings.new later
        → Gives (λ trees. (plain_tree later trees.written, plain_tree later trees.flat, trees.node_of))
        (TreesOf flat.now.symbols flat.now.rules flat.now.shapes flat.now.root strings.old text.now) TreeFault.Memory result }
    ensures fits { IfOk result (λ trees. IsFitting flat.now.symbols flat.now.rules flat.now.shapes flat.now.root (plain_tree strings.new trees.written)) }
    ensures flat { IfOk result (λ trees. IsFlatTree flat.now.rules flat.now.shapes trees.written trees.flat trees.node_of) }
    ensures within { IfOk result (λ trees. IsWithinLimits flat.now.symbols flat.now.rules trees.flat) }
    // What was in `strings`, the text and the answer decide of what is in `strings` now.
    ensures table { IsTableOf strings.old text.now result strings.new }
    ensures few { length strings.new ≤ length strings.old + length text.now }
    ensures kept { Gains strings.old strings.new }
{
    match written_of(alloc, text, flat, strings) {
        Ok(written) => flatten(alloc, flat, written),
        Err(e) => Err(e),
    }
}
