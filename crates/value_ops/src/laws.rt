//! Laws of the definitions. Each function does nothing; what is proved is its contract.
ghost use Rattle.std.specs.Prelude.{List, ℕ, [], ◌∷◌};
ghost use Rattle.std.specs.List.{AllZip};
ghost use Rattle.lido_base.specs.Operations.{operate};
ghost use Rattle.lido_base.specs.Plain.{Plain};
ghost use Rattle.lido_base.specs.declared.operation.Op.{Op};
ghost use Rattle.lido_base.specs.declared.pattern.Pattern.{Pattern};
ghost use Rattle.lido_base.specs.declared.value.Value.{Value};
ghost use Rattle.string_librarian.specs.Rooms.{Deposit, RoomState};
ghost use Rattle.value_ops.specs.Outcome.{bad_at, StandsFor};
ghost use Rattle.value_ops.specs.Results.{result_of, IsFamily, StandsAfter};

/// Where the arguments stand for plain values, the total function gives a value that stands for what the operation gives over
/// these, in the rooms with the deposits that it adds.
pub fn results_stand_for_plain_values()
    ensures { (texts : List (List ℕ)) (patterns : List Pattern) (number : ℕ) (rooms : List Deposit → List RoomState) → IsFamily number rooms
        → (node comp : ℕ) (op : Op) (args : List Value) (plains : List Plain) (ds : List Deposit)
        → AllZip (StandsFor texts patterns (rooms ds)) args plains
        → StandsAfter texts patterns rooms ds (result_of texts patterns number node comp op args ds)
        (operate texts patterns (bad_at node comp) op plains) }
{}

/// One room alone, with whatever space, has what the law above asks of the rooms of a run.
pub fn one_room_is_a_family()
    ensures { (space : ℕ) → IsFamily 0 (λ (ds : List Deposit). record { number = 0; deposits = ds; space = space } ∷ []) }
{}
