//! Laws of written trees: functions that do nothing, whose contracts are the laws.
ghost use Rattle.std.specs.Prelude.{◌≡◌, ◌≢◌, ◌≤◌, ℕ, List, Option, Result, Ok, Err, length};
ghost use Rattle.lido_base.specs.Plain.{Plain};
ghost use Rattle.lido_base.specs.Texts.{IsDistinctTexts};
ghost use Rattle.lido_base.specs.Tree.{Tree};
ghost use Rattle.lido_base.specs.declared.ids.SymId.{SymId as Symbol};
ghost use Rattle.flat_grammar.specs.declared.flat.FlatSymbol.{FlatSymbol};
ghost use Rattle.flat_grammar.specs.declared.flat.FlatRule.{FlatRule};
ghost use Rattle.flat_grammar.specs.declared.flat.Shape.{Shape};
ghost use Rattle.flat_grammar.specs.WellFormed.{IsWellFormed};
ghost use Rattle.flat_grammar.specs.Fitting.{IsFitting};
ghost use Rattle.tree_reader.specs.Language.{Forest};
ghost use Rattle.tree_reader.specs.declared.part.Coordinates.{Coordinates};
ghost use Rattle.tree_reader.specs.Asking.{asked};
ghost use Rattle.tree_reader.specs.WrittenTrees.{meaning, most_nodes};
ghost use Rattle.tree_reader.specs.WrittenAs.{IsWrittenAs};
ghost use Rattle.tree_reader.specs.Ints.{HasInts};
ghost use Rattle.tree_reader.specs.Tables.{IsTableOf};
ghost use Rattle.tree_store.specs.declared.trees.Trees.{Trees};
ghost use Rattle.tree_store.specs.declared.fault.TreeFault.{TreeFault};

/// A tree that a text means fits the grammar.
pub fn what_is_read_fits()
    ensures { (symbols : List FlatSymbol) (rules : List FlatRule) (shapes : List Shape) (root : Symbol) (texts : List (List ℕ))
        → IsWellFormed symbols rules shapes root → (name_at : ℕ) (name : List ℕ) (coordinates : Option Coordinates) (below : Forest) (end : ℕ) (t : Tree Plain) → HasInts below
        → meaning (asked symbols rules shapes root texts) name_at name coordinates below end ≡ Ok t → IsFitting symbols rules shapes root t }
{}

/// A tree that fits the grammar, has no more nodes than a written tree may have, and is written in brackets with the names of its rules
/// and with its coordinates, is what that text means.
pub fn what_fits_is_read()
    ensures { (symbols : List FlatSymbol) (rules : List FlatRule) (shapes : List Shape) (root : Symbol) (texts : List (List ℕ))
        → IsWellFormed symbols rules shapes root → IsDistinctTexts texts → (t : Tree Plain) → IsFitting symbols rules shapes root t → (name_at : ℕ) (name : List ℕ) (coordinates : Option Coordinates) (below : Forest) (end : ℕ)
        → length t ≤ most_nodes → IsWrittenAs rules texts t name coordinates below → meaning (asked symbols rules shapes root texts) name_at name coordinates below end ≡ Ok t }
{}

/// The texts that were there, the text of a tree and the answer decide of the texts that are there afterwards, unless memory ran out.
pub fn one_table()
    ensures { (texts : List (List ℕ)) (text : List ℕ) (answer : Result Trees TreeFault) → answer ≢ Err TreeFault.Memory → (later other : List (List ℕ))
        → IsTableOf texts text answer later → IsTableOf texts text answer other → other ≡ later }
{}
