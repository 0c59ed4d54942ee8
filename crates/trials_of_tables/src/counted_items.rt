//! A specification with a class, a chain, a list, an INCLUDING, a CONSTITUENTS and a message.
ghost use Rattle.std.specs.Prelude.{◌≡◌, ◌∷◌, [], ℕ, List, codes, nat_eq};
ghost use Rattle.lido_syntax.specs.Sets.{Sets};
ghost use Rattle.rule_tables.specs.Copies.{message, joined, shown, constant_text};
ghost use Rattle.table_faults.specs.Faults.{table_faults};
ghost use Rattle.rule_tables.specs.Forced.{AreForced};
ghost use Rattle.rule_tables.specs.InForceFaults.{in_force_faults};
ghost use Rattle.rule_tables.specs.Needs.{rules, AreTables, Needs, NeedsIncluding, NeedsChain, IsWanted, CanReach};
ghost use Rattle.lido_symbols.specs.FromText.{IsFromText};
ghost use Rattle.lido_symbols.specs.Numbers.{AreNumbered};
ghost use Rattle.rule_tables.specs.PlainRules.{plain_rules};
ghost use Rattle.rule_tables.specs.Shares.{IncludingShare, ConstituentsShare, ChainShare, Read, Copied, Comb, below_term, out_term};
ghost use Rattle.rule_tables.specs.Slots.{Slot, Written, Inc, Con, Front, Behind, Msg, Out, AreSlots, IsBefore};
ghost use Rattle.lido_symbols.specs.Uses.{all_includings, all_constituents, attribute_uses, symbol_uses};
ghost use Rattle.lido_base.specs.Faults.{HasNone};
ghost use Rattle.lido_syntax.specs.Computation.{by_rule};
ghost use Rattle.trials_of_tables.specs.CountedItems.{spec, env, symbols, slots, tables, cell, Top, Item, b, t};
ghost use Rattle.trials_of_tables.specs.CountedItems.{no, pairs, sum, with_sum, item_rule, start, out, give_no};
ghost use Rattle.trials_of_tables.specs.CountedItems.{rule_of_top, rule_of_item, rule_of_link, rule_of_end, of_top, of_item};

/// Symbols and attributes are numbered by the places where they first stand. The plain rules are those of the text, with
/// the cell behind the symbols, and then the two of the cell. The text has one INCLUDING and one CONSTITUENTS.
pub fn tables_of_items()
    ensures numbers { AreNumbered nat_eq (symbol_uses spec env) symbols }
    ensures attributes { AreNumbered nat_eq (attribute_uses spec) (b ∷ t ∷ no ∷ []) }
    ensures rules { plain_rules spec symbols
        ≡ rule_of_top ∷ rule_of_item ∷ rule_of_link ∷ rule_of_end ∷ [] }
    ensures includings { all_includings spec ≡ (84, pairs) ∷ [] }
    ensures constituents { all_constituents spec ≡ (4, sum) ∷ [] }
{}

/// The class's INCLUDING is in force at Item, which needs it, as the cell above it does, and not the root, which it lists.
/// Item is wanted and a source. The chain is needed below its start alone.
pub fn needs_of_items()
    ensures item { (sets : Sets spec) → NeedsIncluding spec (tables sets) pairs Item }
    ensures list_cell { (sets : Sets spec) → NeedsIncluding spec (tables sets) pairs cell }
    ensures not_root { (sets : Sets spec) → ¬ NeedsIncluding spec (tables sets) pairs Top }
    ensures wanted { (sets : Sets spec) → IsWanted spec (tables sets) sum Item }
    ensures source { (sets : Sets spec) → CanReach spec (tables sets) sum Item }
    ensures above_source { (sets : Sets spec) → CanReach spec (tables sets) sum cell }
    ensures chain { (sets : Sets spec) → NeedsChain spec (tables sets) no Item }
    ensures chain_of_cell { (sets : Sets spec) → NeedsChain spec (tables sets) no cell }
    ensures no_chain_of_root { (sets : Sets spec) → ¬ NeedsChain spec (tables sets) no Top }
{}

/// The root hands its attribute to the cell, and the cell what it was given to its element. The chain starts in front of the
/// cell. An item's message is its severity, its text and a line feed.
pub fn shares_of_items()
    ensures from_root { (sets : Sets spec) (needs : Needs spec (tables sets))
        → IncludingShare spec (tables sets) needs rule_of_top of_top 1 (Inc 0) (Read 0 (Written b)) }
    ensures from_cell { (sets : Sets spec) (needs : Needs spec (tables sets))
        → IncludingShare spec (tables sets) needs rule_of_link [] 1 (Inc 0) (Read 0 (Inc 0)) }
    ensures gathered { (sets : Sets spec) (needs : Needs spec (tables sets))
        → ConstituentsShare spec (tables sets) needs rule_of_link [] 0 (Con 4)
        (Comb 4 with_sum.comb (Read 1 (Con 4)) (Read 2 (Con 4))) }
    ensures below_root { (sets : Sets spec) (needs : Needs spec (tables sets))
        → below_term spec (tables sets) needs rule_of_top of_top sum ≡ Read 1 (Con 4) }
    ensures started { (sets : Sets spec) (needs : Needs spec (tables sets))
        → ChainShare spec (tables sets) needs rule_of_top of_top 1 (Front no) (Copied by_rule start) }
    ensures assigned { (sets : Sets spec) (needs : Needs spec (tables sets))
        → ChainShare spec (tables sets) needs rule_of_item of_item 0 (Behind no) (Copied by_rule give_no) }
    ensures put_out { (sets : Sets spec) (needs : Needs spec (tables sets))
        → out_term spec (tables sets) needs rule_of_top of_top ≡ Copied by_rule out }
    ensures message { (sets : Sets spec) (needs : Needs spec (tables sets)) (slots : ℕ → List Slot)
        → message spec (tables sets) needs slots env item_rule rule_of_item of_item 1
        ≡ joined 6 (shown 6 (constant_text env (codes "WARNING: ")))
        (joined 6 (shown 6 (constant_text env (codes "counted"))) (shown 6 (constant_text env (10 ∷ [])))) }
{}

/// In force are the computations of the rules at their left sides, and that of the class at Item, which has none of its own. In the
/// cell's rules nothing is.
pub fn forced_of_items()
    ensures { (sets : Sets spec) → AreForced spec (rules spec (tables sets)) (tables sets).forced }
{}

/// These tables are those of the specification, with one INCLUDING, one CONSTITUENTS and what is in force.
pub fn whole_tables_of_items()
    ensures { (sets : Sets spec) → AreTables spec (tables sets) env }
{}

/// The root has its attribute and the output, and Item what the class hands it, what is added, and its message. The cell has
/// what is added alone. A message stands before the output.
pub fn slots_of_items()
    ensures attributes { (sets : Sets spec) (needs : Needs spec (tables sets)) → AreSlots spec (tables sets) needs slots }
    ensures message_first { (sets : Sets spec) (needs : Needs spec (tables sets))
        → IsBefore spec (tables sets) needs (Msg 1) Out }
{}

/// It is as one that was read from a text: places tell names, and places and numbers tell computations.
pub fn items_from_text()
    ensures { IsFromText spec }
{}

/// No fault of the tables stands in it.
pub fn without_faults()
    ensures { HasNone (table_faults spec env) }
{}

/// No fault of the computations in force stands in it: no class inherits itself, no computations of two classes are left,
/// and each attribute has a computation.
pub fn without_in_force_faults()
    ensures { (sets : Sets spec) → HasNone (in_force_faults spec (tables sets)) }
{}
