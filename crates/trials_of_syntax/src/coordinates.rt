//! LINE and COL.
ghost use Rattle.std.specs.Prelude.{pos, Some};
ghost use Rattle.lido_base.specs.Plain.{Int, Void};
ghost use Rattle.lido_syntax.specs.declared.spec.Expr.TheVariants as expression;
ghost use Rattle.lido_syntax.specs.Computation.{by_rule, by_symbol};
ghost use Rattle.trials_of_syntax.specs.Coordinates.{HasValue, here_rule, there_rule, lines_rule};
ghost use Rattle.trials_of_syntax.specs.Writing.{LINE, COL, name, terminal};

/// They are the node's line and column, but LINE in a rule's computation where the production has a symbol of that name, also
/// a list's element, and with an index.
pub fn line_and_column()
    ensures line { HasValue by_rule here_rule 1 (terminal LINE) (Int (pos 3)) }
    ensures column { HasValue by_rule here_rule 1 (terminal COL) (Int (pos 7)) }
    ensures terminal_of_that_name { HasValue by_rule there_rule 2 (terminal LINE) (Int (pos 40)) }
    ensures column_beside_it { HasValue by_rule there_rule 2 (terminal COL) (Int (pos 9)) }
    ensures in_a_symbol { HasValue by_symbol there_rule 2 (terminal LINE) (Int (pos 4)) }
    ensures element_of_that_name { HasValue by_rule lines_rule 3 (terminal LINE) Void }
    ensures with_an_index { HasValue by_rule here_rule 1 (expression.Terminal (name LINE) (Some (pos 1))) Void }
{}
