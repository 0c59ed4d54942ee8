//! Where the nodes of a written tree stand.
ghost use Rattle.std.specs.Prelude.{◌≡◌, None, Ok, Some};
ghost use Rattle.trials_of_trees.specs.Coordinates.{at, table, tree_at};

/// A node has the coordinates behind its name, else its parent's, else 0 and 0.
pub fn coordinates_are_handed_down()
    ensures written { tree_at (Some (at 1 1)) ≡ Ok (table (at 1 1)) }
    ensures none { tree_at None ≡ Ok (table (at 0 0)) }
{}
