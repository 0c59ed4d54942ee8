//! The text cells that a flat expression counts for an operation are those that `apply` asks a room for.
ghost use Rattle.std.specs.Prelude.{◌≡◌, List, length};
ghost use Rattle.lido_base.specs.declared.operation.Op.{Op as Operation};
ghost use Rattle.lido_base.specs.declared.value.Value.{Value as Argument};
ghost use Rattle.flat_grammar.specs.Fitting.{own_cells};
ghost use Rattle.value_ops.specs.Outcome.{cells_wanted};

/// Both count one cell for a text operation and one for each of its arguments, and none for another operation.
pub fn one_count_of_cells()
    ensures { (op : Operation) (args : List Argument) → cells_wanted op args ≡ own_cells op (length args) }
{}
