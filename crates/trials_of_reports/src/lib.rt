//! The reports of two orders, computed by the definition.
//!
//! Each function does nothing; what is proved is its contract. Nothing of the product stands on this crate.
#![tactic(auto)]

ghost use Rattle.std.specs.Prelude.{◌≡◌};
ghost use Rattle.order_report.specs.Report.{IsNamedGrammar, report};
ghost use Rattle.trials_of_grammar.specs.LateInherited.{symbols as late_symbols, rules as late_rules, visits, sequences};
ghost use Rattle.trials_of_grammar.specs.ListOfItems.{symbols as list_symbols, rules as list_rules};
ghost use Rattle.trials_of_reports.specs.Reports.{report_of_late, report_of_list, sequences_of_list, texts_of_late, texts_of_list, visits_of_list};

/// An inherited attribute that nothing uses: its visit comes last.
pub fn report_of_the_late_attribute()
    ensures report { report texts_of_late late_symbols late_rules visits sequences ≡ report_of_late }
    ensures named { IsNamedGrammar texts_of_late late_symbols late_rules }
{}

/// A list: a number has no line, and the cell has an index where it stands twice.
pub fn report_of_the_list()
    ensures report { report texts_of_list list_symbols list_rules visits_of_list sequences_of_list ≡ report_of_list }
    ensures named { IsNamedGrammar texts_of_list list_symbols list_rules }
{}
