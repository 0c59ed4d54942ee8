//! Laws of the definitions. Each function does nothing; what is proved is its contract.
ghost use Rattle.std.specs.Prelude.{◌↔◌, ℕ, Bool, IsTrue, List as Sequence};
ghost use Rattle.lido_base.specs.Reach.{Reaches, IsPathFrom, IsLeastPath};

/// Where tests agree at each vertex, and at each edge, a source can be reached from the same vertices, by the same paths, of
/// which the same one is the first.
pub fn agreeing_tests_have_one_graph()
    ensures reaches { (is_source is_other : ℕ → Bool) (is_edge is_way : ℕ → ℕ → Bool)
        → ((x : ℕ) → IsTrue (is_source x) ↔ IsTrue (is_other x)) → ((x y : ℕ) → IsTrue (is_edge x y) ↔ IsTrue (is_way x y))
        → (x : ℕ) → Reaches is_source is_edge x ↔ Reaches is_other is_way x }
    ensures path { (is_start is_first is_source is_other : ℕ → Bool) (is_edge is_way : ℕ → ℕ → Bool)
        → ((x : ℕ) → IsTrue (is_start x) ↔ IsTrue (is_first x)) → ((x : ℕ) → IsTrue (is_source x) ↔ IsTrue (is_other x))
        → ((x y : ℕ) → IsTrue (is_edge x y) ↔ IsTrue (is_way x y))
        → (path : Sequence ℕ) → IsPathFrom is_start is_source is_edge path ↔ IsPathFrom is_first is_other is_way path }
    ensures least { (is_start is_first is_source is_other : ℕ → Bool) (is_edge is_way : ℕ → ℕ → Bool)
        → ((x : ℕ) → IsTrue (is_start x) ↔ IsTrue (is_first x)) → ((x : ℕ) → IsTrue (is_source x) ↔ IsTrue (is_other x))
        → ((x y : ℕ) → IsTrue (is_edge x y) ↔ IsTrue (is_way x y))
        → (path : Sequence ℕ) → IsLeastPath is_start is_source is_edge path → IsLeastPath is_first is_other is_way path }
{}
