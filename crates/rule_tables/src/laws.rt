//! Laws of the definitions. Each function does nothing; what is proved is its contract.
ghost use Rattle.std.specs.Prelude.{◌≡◌, ℕ, List};
ghost use Rattle.lido_syntax.specs.declared.spec.Cons.{Cons as Constituents};
ghost use Rattle.lido_syntax.specs.declared.spec.Pair.{Pair};
ghost use Rattle.lido_syntax.specs.declared.spec.Spec.{Spec as Specification};
ghost use Rattle.rule_tables.specs.Needs.{Tables as Numbered, Needs};

/// Who needs an INCLUDING or a chain, and what a CONSTITUENTS wants below it and can reach, can be decided for all tables,
/// and any two tests for these sets agree.
pub fn decided_needs()
    ensures some { (spec : Specification) (T : Numbered spec) → Needs spec T }
    ensures including { (spec : Specification) (T : Numbered spec) (x y : Needs spec T) (pairs : List Pair) (n : ℕ)
        → x.including pairs n ≡ y.including pairs n }
    ensures wanted { (spec : Specification) (T : Numbered spec) (x y : Needs spec T) (k : Constituents) (n : ℕ)
        → x.wanted k n ≡ y.wanted k n }
    ensures reaches { (spec : Specification) (T : Numbered spec) (x y : Needs spec T) (k : Constituents) (n : ℕ)
        → x.reaches k n ≡ y.reaches k n }
    ensures chain { (spec : Specification) (T : Numbered spec) (x y : Needs spec T) (c n : ℕ)
        → x.chain c n ≡ y.chain c n }
{}
