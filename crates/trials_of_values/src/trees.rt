// A tree with lists, tables that are none, and what is computed over trees.
ghost use Rattle.std.specs.Prelude.{◌≡◌, [], ◌∷◌, ℕ, pos, Some, None, codes};
ghost use Rattle.lido_base.specs.Plain.{plain_tree};
ghost use Rattle.lido_base.specs.Plain as plain;
ghost use Rattle.lido_base.specs.Tree.{IsTree, Leaf, ancestors, children, from_children, item_at, place_of, with_item, with_node};
ghost use Rattle.lido_base.specs.declared.value.Value.TheVariants as value;
ghost use Rattle.trials_of_values.specs.Samples.{texts, id};
ghost use Rattle.trials_of_values.specs.Tables.{listed, built, orphan, misplaced, shifted, swapped, count_below};

/// A table with a list of three items, one of them nested, is a tree, and it is what its nodes and terminals make of the
/// empty table one by one.
pub fn a_tree_with_lists()
    ensures tree { IsTree listed }
    ensures step_by_step { built ≡ listed }
    ensures of_the_list { children listed 0 ≡ 1 ∷ 2 ∷ 5 ∷ [] }
    ensures of_the_group { children listed 2 ≡ 3 ∷ 4 ∷ [] }
    ensures terminal { item_at listed 2 1 ≡ Some (Leaf 7) }
    ensures behind_a_terminal { place_of listed 4 ≡ 3 }
{}

/// Tables that are no trees: an empty one, a node that its parent does not have, one that is out of preorder, one at
/// another place than it says, and children out of order.
pub fn tables_that_are_no_trees()
    ensures empty { ¬ IsTree {V = ℕ} [] }
    ensures orphan { ¬ IsTree orphan }
    ensures misplaced { ¬ IsTree misplaced }
    ensures shifted { ¬ IsTree shifted }
    ensures swapped { ¬ IsTree swapped }
{}

/// The ancestors of a node begin with its parent and end with the root; the nodes of each subtree are counted upwards.
pub fn computed_over_a_tree()
    ensures above_the_root { ancestors listed 0 ≡ [] }
    ensures above_an_item { ancestors listed 5 ≡ 0 ∷ [] }
    ensures above_a_nested_item { ancestors listed 4 ≡ 2 ∷ 0 ∷ [] }
    ensures above_no_node { ancestors listed 6 ≡ [] }
    ensures all { from_children listed 0 count_below 0 ≡ 6 }
    ensures of_the_group { from_children listed 0 count_below 2 ≡ 3 }
    ensures of_an_item { from_children listed 0 count_below 3 ≡ 1 }
{}

/// Terminals become plain: a string its bytes, an int itself. Nothing else of the tree changes, line and column neither.
pub fn plain_terminals()
    ensures { plain_tree texts (with_item (with_item (with_node [] 4 None 3 7) 0 (Leaf (value.Str (id 1)))) 0 (Leaf (value.Int (pos 8))))
        ≡ with_item (with_item (with_node [] 4 None 3 7) 0 (Leaf (plain.Str (codes " ")))) 0 (Leaf (plain.Int (pos 8))) }
{}
