//! Laws of flat trees: functions that do nothing, whose contracts are the laws.
ghost use Rattle.std.specs.Prelude.{◌≡◌, ◌<◌, ℕ, List, length, Some, Contains};
ghost use Rattle.lido_base.specs.Plain.{Plain, plain_tree};
ghost use Rattle.lido_base.specs.Tree.{Tree as Table, rule_at};
ghost use Rattle.lido_base.specs.declared.ids.SymId.{SymId};
ghost use Rattle.lido_base.specs.declared.value.Value.{Value as Terminal};
ghost use Rattle.flat_grammar.specs.declared.flat.FlatSymbol.{FlatSymbol};
ghost use Rattle.flat_grammar.specs.declared.flat.FlatRule.{FlatRule};
ghost use Rattle.flat_grammar.specs.declared.flat.Shape.{Shape};
ghost use Rattle.flat_grammar.specs.Fitting.{IsFitting, instances, text_cells};
ghost use Rattle.flat_grammar.specs.FlatTrees.{IsFlatTree};
ghost use Rattle.flat_grammar.specs.WellFormed.{IsWellFormed};
ghost use Rattle.tree_flattener.specs.Roles.{HasRole};

/// A written tree whose nodes have shapes has one flat tree, with one list of written nodes.
pub fn one_flat_tree<V>()
    ensures shaped { (symbols : List FlatSymbol) (rules : List FlatRule) (shapes : List Shape) (root : SymId)
        (W F G : Table V) (node_of others : List ℕ)
        → IsWellFormed symbols rules shapes root
        → ((w : ℕ) → w < length W → (shape : Shape) × Contains shapes shape × (rule_at W w ≡ Some shape.rule.0))
        → IsFlatTree rules shapes W F node_of → IsFlatTree rules shapes W G others → (F ≡ G) × (node_of ≡ others) }
    ensures fitting { (symbols : List FlatSymbol) (rules : List FlatRule) (shapes : List Shape) (root : SymId)
        (W F G : Table Plain) (node_of others : List ℕ)
        → IsWellFormed symbols rules shapes root → IsFitting symbols rules shapes root W
        → IsFlatTree rules shapes W F node_of → IsFlatTree rules shapes W G others → (F ≡ G) × (node_of ≡ others) }
{}

/// A flat tree stays one where its terminals are made plain, and the plain written tree has no other. Its instances and text
/// cells stay as many.
pub fn plain_trees_stay_flat()
    ensures flat { (symbols : List FlatSymbol) (rules : List FlatRule) (shapes : List Shape) (texts : List (List ℕ))
        (W F : Table Terminal) (node_of : List ℕ)
        → IsFlatTree rules shapes W F node_of → IsFlatTree rules shapes (plain_tree texts W) (plain_tree texts F) node_of }
    ensures only { (symbols : List FlatSymbol) (rules : List FlatRule) (shapes : List Shape) (root : SymId) (texts : List (List ℕ))
        (W F : Table Terminal) (node_of : List ℕ) (G : Table Plain) (others : List ℕ)
        → IsWellFormed symbols rules shapes root → IsFitting symbols rules shapes root (plain_tree texts W)
        → IsFlatTree rules shapes W F node_of → IsFlatTree rules shapes (plain_tree texts W) G others
        → (G ≡ plain_tree texts F) × (others ≡ node_of) }
    ensures instances { (symbols : List FlatSymbol) (rules : List FlatRule) (texts : List (List ℕ)) (F : Table Terminal)
        → instances symbols rules (plain_tree texts F) ≡ instances symbols rules F }
    ensures text_cells { (symbols : List FlatSymbol) (rules : List FlatRule) (texts : List (List ℕ)) (F : Table Terminal)
        → text_cells symbols rules (plain_tree texts F) ≡ text_cells symbols rules F }
{}

/// Each flat node is a written node, or a cell of a written list, from which on the list's last elements stand.
pub fn each_flat_node_has_a_role<V>()
    ensures { (rules : List FlatRule) (shapes : List Shape) (W F : Table V) (node_of : List ℕ)
        → ((w : ℕ) → w < length W → (shape : Shape) × Contains shapes shape × (rule_at W w ≡ Some shape.rule.0))
        → IsFlatTree rules shapes W F node_of → (n : ℕ) → n < length F → (w : ℕ) × HasRole rules shapes W F node_of n w }
{}
