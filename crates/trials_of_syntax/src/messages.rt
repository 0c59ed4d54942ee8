//! Messages of plain computations.
ghost use Rattle.std.specs.Prelude.{◌≡◌, ℕ, List, [], pos, codes, Ok, Err};
ghost use Rattle.lido_base.specs.Plain.{Plain, Int, Bad, Void};
ghost use Rattle.lido_syntax.specs.Messages.{IsMessage, IsNote};
ghost use Rattle.lido_syntax.specs.Output.{IsResult};
ghost use Rattle.lido_syntax.specs.Sets.{Sets};
ghost use Rattle.trials_of_syntax.specs.Messages.{spec, tree, numbered, zero_divisor, bad_condition, bad_text, never, notes};
ghost use Rattle.trials_of_syntax.specs.Writing.{env_of_messages};

/// A Bad condition is Bad, and so is a Bad text where the condition is true. A false condition gives no message, whatever
/// the text is, and nothing else.
pub fn conditions_of_messages()
    ensures condition { (sets : Sets spec)
        → IsMessage spec sets env_of_messages (tree 1) (numbered (Int (pos 6))) 1 bad_condition (Bad (zero_divisor 1 6)) }
    ensures text { (sets : Sets spec)
        → IsMessage spec sets env_of_messages (tree 1) (numbered (Int (pos 6))) 1 bad_text (Bad (zero_divisor 1 7)) }
    ensures never { (sets : Sets spec)
        → IsMessage spec sets env_of_messages (tree 1) (numbered (Int (pos 6))) 1 never Void }
    ensures no_note { (sets : Sets spec) (bytes : List ℕ)
        → IsNote spec sets env_of_messages (tree 1) (numbered (Int (pos 6))) 1 never bytes → bytes ≡ [] }
{}

/// With a divisor of 1 the output is 1 and three messages come, by node and there by number, not by line. With 7 the least
/// fault is that of a message, before that of the output; with 0 that of the attribute, before that of a message.
pub fn messages_and_least_faults()
    ensures written { (sets : Sets spec)
        → IsResult spec sets env_of_messages (tree 1) (numbered (Int (pos 6))) (Ok (codes "1", notes)) }
    ensures of_a_message { (sets : Sets spec)
        → IsResult spec sets env_of_messages (tree 7) (numbered (Int (pos 0))) (Err (zero_divisor 0 1)) }
    ensures of_an_attribute { (sets : Sets spec)
        → IsResult spec sets env_of_messages (tree 0) (numbered (Bad (zero_divisor 1 3))) (Err (zero_divisor 1 3)) }
{}
