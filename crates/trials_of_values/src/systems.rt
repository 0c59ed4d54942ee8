// A system of equations in order with its one solution, and a circular one.
ghost use Rattle.std.specs.Prelude.{◌≡◌, [], ◌∷◌, ℕ, Option, Some, None};
ghost use Rattle.lido_base.specs.Equations.{IsOrdered, IsSolution, HasOneSolution};
ghost use Rattle.trials_of_values.specs.Systems.{three, circular};

/// Unknowns that are 1, one more, and the sum of these are 1, 2 and 3 in the only solution.
pub fn equations_in_order()
    ensures ordered { IsOrdered 0 three (2 ∷ 1 ∷ 0 ∷ []) }
    ensures one { HasOneSolution 0 three (2 ∷ 1 ∷ 0 ∷ []) }
    ensures first { (a : ℕ → Option ℕ) → IsSolution 0 three (2 ∷ 1 ∷ 0 ∷ []) a → a 0 ≡ Some 1 }
    ensures second { (a : ℕ → Option ℕ) → IsSolution 0 three (2 ∷ 1 ∷ 0 ∷ []) a → a 1 ≡ Some 2 }
    ensures third { (a : ℕ → Option ℕ) → IsSolution 0 three (2 ∷ 1 ∷ 0 ∷ []) a → a 2 ≡ Some 3 }
    ensures nothing_else { (a : ℕ → Option ℕ) → IsSolution 0 three (2 ∷ 1 ∷ 0 ∷ []) a → a 3 ≡ None }
    ensures wrong_order { ¬ IsOrdered 0 three (1 ∷ 2 ∷ 0 ∷ []) }
{}

/// An unknown that is one more than itself cannot be put in order, and has no solution.
pub fn circular_equations()
    ensures unordered { ¬ IsOrdered 0 circular (0 ∷ []) }
    ensures unsolved { (a : ℕ → Option ℕ) → ¬ IsSolution 0 circular (0 ∷ []) a }
{}
