//! A list whose items' numbers are added up along its cells, with the tree `(rTop@1:1 (rItem@3:7 5) (rItem 6))`.
ghost use Rattle.std.specs.Prelude.{◌≡◌, ◌∷◌, [], ℕ, pos};
ghost use Rattle.lido_base.specs.Plain.{Plain, Int};
ghost use Rattle.lido_base.specs.declared.kinds.CoordPart.TheVariants.{Line, Col};
ghost use Rattle.flat_grammar.specs.declared.flat.FlatExpr.TheVariants as expr;
ghost use Rattle.flat_grammar.specs.WholeOrder.{Instance};
ghost use Rattle.flat_grammar.specs.Instances.{IsGrown};
ghost use Rattle.lido_base.specs.Tree.{IsTree};
ghost use Rattle.flat_grammar.specs.WellFormed.{IsWellFormed};
ghost use Rattle.flat_grammar.specs.FlatTrees.{IsFlatTree};
ghost use Rattle.flat_grammar.specs.Fitting.{IsFitting, instances, text_cells};
ghost use Rattle.flat_grammar.specs.FlatAttribution.{value_of, IsFlatAttribution, IsFaultyAt, IsLeastFault};
ghost use Rattle.trials_of_grammar.specs.ListOfItems.{symbols, rules, shapes, root, list_shape, item_with_cell, goal_missing, goal_twice, cell_used_elsewhere};
ghost use Rattle.trials_of_grammar.specs.ItemTrees.{two_items, cells_at, two_cells, no_names, node_of_two, no_end, node_of_no_end, list_in_list, sums, wrong_sums, faulty, overflow, in_table};

/// The grammar with the cells `$rTop`, `rTop$Item` and `rTop$` is well formed. It is not where a goal is missing, a goal is
/// computed twice, or a cell stands in a rule that isn't its own.
pub fn well_formed_grammar()
    ensures met { IsWellFormed symbols rules shapes root }
    ensures goal_missing { ¬ IsWellFormed symbols goal_missing shapes root }
    ensures goal_twice { ¬ IsWellFormed symbols goal_twice shapes root }
    ensures cell_elsewhere { ¬ IsWellFormed symbols cell_used_elsewhere (list_shape ∷ item_with_cell ∷ []) root }
{}

/// Both tables are trees, and the one with two cells and the end cell is the flat tree of the other. It is not where the end
/// cell is left out, or where the first cell has the line or the column of its element.
pub fn flat_tree_of_two_items()
    ensures written { IsTree two_items }
    ensures flat { IsTree two_cells }
    ensures met { IsFlatTree rules shapes two_items two_cells node_of_two }
    ensures end_left_out { ¬ IsFlatTree rules shapes two_items no_end node_of_no_end }
    ensures line_of_the_element { ¬ IsFlatTree rules shapes two_items (cells_at 3 1) node_of_two }
    ensures column_of_the_element { ¬ IsFlatTree rules shapes two_items (cells_at 1 7) node_of_two }
{}

/// The written tree fits the grammar, and a list in the place of an item does not. The flat tree's instances are counted at
/// its nodes (1 + 1 + 2 + 1 + 2 + 1), and its text cells at `PTGNumb` (1 and one argument).
pub fn fitting_tree()
    ensures met { IsFitting symbols rules shapes root two_items }
    ensures list_no_item { ¬ IsFitting symbols rules shapes root list_in_list }
    ensures instances { instances symbols rules two_cells ≡ 8 }
    ensures text_cells { text_cells symbols rules two_cells ≡ 2 }
{}

/// The sums along the cells are an attribution of the flat tree. They are not where the first cell forgets its element.
pub fn flat_attribution_of_sums()
    ensures met { IsFlatAttribution symbols rules no_names two_cells node_of_two (in_table sums) }
    ensures element_forgotten { ¬ IsFlatAttribution symbols rules no_names two_cells node_of_two (in_table wrong_sums) }
{}

/// The least fault is the least origin among the written attributes. An earlier one of a cell's attribute doesn't count.
pub fn least_fault_of_written_attributes()
    ensures met { IsLeastFault symbols rules two_cells (in_table faulty) (overflow 1 2) }
    ensures not_written { ¬ IsFaultyAt symbols rules two_cells (in_table faulty) (overflow 0 1) }
{}

/// The flat tree has at each node what the node's rule says.
pub fn grown_tree()
    ensures { IsGrown symbols rules two_cells root }
{}

/// LINE and COL are those of the node of origin: of an item what stands behind its name, or else its parent's, and of a cell the list's.
pub fn lines_and_columns()
    ensures item { (B : Instance → Plain) (n : ℕ) → value_of no_names two_cells node_of_two B 2 n (expr.Coord Line) ≡ Int (pos 3) }
    ensures item_column { (B : Instance → Plain) (n : ℕ) → value_of no_names two_cells node_of_two B 2 n (expr.Coord Col) ≡ Int (pos 7) }
    ensures other_item { (B : Instance → Plain) (n : ℕ) → value_of no_names two_cells node_of_two B 4 n (expr.Coord Line) ≡ Int (pos 1) }
    ensures cell { (B : Instance → Plain) (n : ℕ) → value_of no_names two_cells node_of_two B 1 n (expr.Coord Line) ≡ Int (pos 1) }
{}
