//! Laws of patterns. Each function does nothing; what is proved is its contract.
ghost use Rattle.std.specs.Prelude.{◌≡◌, ℕ, List, Result};
ghost use Rattle.lido_base.specs.Texts.{IsDistinctTexts};
ghost use Rattle.lido_base.specs.declared.pattern.Pattern.{Pattern};
ghost use Rattle.ptg_patterns.specs.declared.fault.PtgFault.{PtgFault};
ghost use Rattle.ptg_patterns.specs.Texts.{IsTableBehind, PatternsFrom};

/// Read behind a table of distinct texts, a text has one list of patterns at most, or one fault, and never both; and there is one
/// table behind it.
pub fn one_list_of_patterns()
    ensures answer { (texts : List (List ℕ)) (text : List ℕ) → IsDistinctTexts texts
        → (first second : Result (List Pattern) PtgFault)
        → PatternsFrom texts text first → PatternsFrom texts text second → first ≡ second }
    ensures table { (texts : List (List ℕ)) (text : List ℕ) (first second : List (List ℕ))
        → IsTableBehind texts text first → IsTableBehind texts text second → first ≡ second }
{}
