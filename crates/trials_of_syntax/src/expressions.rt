//! Values of expressions without attributes, at any node of any tree, and what a computation is made of.
ghost use Rattle.std.specs.Prelude.{◌≡◌, [], ◌∷◌, pos, negsuc, false};
ghost use Rattle.lido_syntax.specs.Attributes.{uses};
ghost use Rattle.lido_syntax.specs.Parts.{parts_of, leaves_of};
ghost use Rattle.trials_of_syntax.specs.Messages as messages;
ghost use Rattle.trials_of_syntax.specs.Writing.{int, str, name, named, read, one_text};
ghost use Rattle.lido_base.specs.Plain.{Plain};
ghost use Rattle.trials_of_syntax.specs.Expressions.{IsAlways, chosen_branch, difference, remainder, division_by_zero, first_bad};
ghost use Rattle.lido_base.specs.declared.value.BadKind.{BadKind};

/// `IF(false, 1 / 0, 5)` is 5, `0 - 7 / 2` is -3, `-7 % 2` is -1, and `1 / 0` fails.
pub fn values_of_expressions()
    ensures branch { IsAlways chosen_branch (λ number n. Plain.Int (pos 5)) }
    ensures difference { IsAlways difference (λ number n. Plain.Int (negsuc 2)) }
    ensures remainder { IsAlways remainder (λ number n. Plain.Int (negsuc 0)) }
    ensures fails { IsAlways division_by_zero (λ number n.
        Plain.Bad (record { node = n; comp = number; kind = BadKind.DivideByZero })) }
    ensures first { IsAlways first_bad (λ number n.
        Plain.Bad (record { node = n; comp = number; kind = BadKind.DivideByZero })) }
{}

/// The parts, the leaves and the uses of a message are those of its condition, and then of its text.
pub fn parts_of_a_message()
    ensures parts { parts_of messages.two_note ≡ messages.two_condition ∷ messages.six_by (read (named messages.Item) messages.n)
        ∷ int 6 ∷ read (named messages.Item) messages.n ∷ int 2 ∷ str one_text ∷ [] }
    ensures leaves { leaves_of messages.two_note
        ≡ int 6 ∷ read (named messages.Item) messages.n ∷ int 2 ∷ str one_text ∷ [] }
    ensures uses { uses messages.two_note ≡ (named messages.Item, name messages.n) ∷ [] }
{}
