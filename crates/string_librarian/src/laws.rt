//! Laws of the definitions. Each function does nothing; what is proved is its contract.
ghost use Rattle.std.specs.Prelude.{◌≡◌, List, ℕ, length};
ghost use Rattle.lido_base.specs.declared.pattern.Pattern.{Pattern};
ghost use Rattle.lido_base.specs.declared.value.Desc.{Desc};
ghost use Rattle.string_librarian.specs.Denotes.{Denotes};
ghost use Rattle.string_librarian.specs.Rooms.{RoomState, HaveGrown};

/// A descriptor denotes one text at most.
pub fn one_text_at_most()
    ensures { (texts : List (List ℕ)) (patterns : List Pattern) (rooms : List RoomState) (d : Desc) (bytes other : List ℕ)
        → Denotes texts patterns rooms d bytes → Denotes texts patterns rooms d other → bytes ≡ other }
{}

/// A descriptor has the length of the text that it denotes.
pub fn descriptors_have_lengths()
    ensures { (texts : List (List ℕ)) (patterns : List Pattern) (rooms : List RoomState) (d : Desc) (bytes : List ℕ)
        → Denotes texts patterns rooms d bytes → length bytes ≡ d.len }
{}

/// What a descriptor denotes depends on nothing but deposits: where rooms are added, or deposits behind those of a room, it
/// denotes what it did.
pub fn more_deposits_keep_texts()
    ensures { (texts : List (List ℕ)) (patterns : List Pattern) (old new : List RoomState) (d : Desc) (bytes : List ℕ)
        → HaveGrown old new → Denotes texts patterns old d bytes → Denotes texts patterns new d bytes }
{}
