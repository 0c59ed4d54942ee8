//! Laws of the definitions. Each function does nothing; what is proved is its contract.
ghost use Rattle.std.specs.Prelude.{◌≡◌, ◌<◌, ◌≤◌, ◌+◌, ◌⊎◌, ◌↔◌, [], ◌∷◌, Bool, Contains, IsTrue, List, ℕ, Some, None, length, map, slice_get};
ghost use Rattle.std.specs.List.{AllZip};
ghost use Rattle.lido_base.specs.Equations.{IsOrdered, HasOneSolution};
ghost use Rattle.lido_base.specs.Operations.{operate};
ghost use Rattle.lido_base.specs.Origins.{IsAtMost};
ghost use Rattle.lido_base.specs.Reach.{Reaches, IsClosed, IsWithin, IsDecided, IsPath, IsLeastPath, IsLeastCycle};
ghost use Rattle.lido_base.specs.Subtrees.{IsInSubtree};
ghost use Rattle.lido_base.specs.Texts.{IsDistinctTexts, with_text};
ghost use Rattle.lido_base.specs.Plain.{Plain, plain_item, plain_tree};
ghost use Rattle.lido_base.specs.Tree.{Tree, IsTree, Child, AsksBelow, ancestors, children, coordinate, from_children, item_at, items_of, parent_of, place_of, rule_at};
ghost use Rattle.lido_base.specs.declared.kinds.CoordPart.{CoordPart};
ghost use Rattle.lido_base.specs.Types.{Takes, plain_type, IsOfType};
ghost use Rattle.lido_base.specs.declared.operation.Op.{Op};
ghost use Rattle.lido_base.specs.declared.pattern.Pattern.{Pattern as TextPattern};
ghost use Rattle.lido_base.specs.declared.value.BadKind.{BadKind};
ghost use Rattle.lido_base.specs.declared.value.Origin.{Origin};
ghost use Rattle.lido_base.specs.declared.value.ValueType.{ValueType};
ghost use Rattle.lido_base.specs.declared.value.Value.{Value};

/// In a table of distinct texts, equal texts have equal ids, and one id has one text.
pub fn equal_texts_have_equal_ids()
    ensures same_id { (texts : List (List ℕ)) (i j : ℕ) (text : List ℕ) → IsDistinctTexts texts
        → slice_get texts i ≡ Some text → slice_get texts j ≡ Some text → i ≡ j }
    ensures same_text { (texts : List (List ℕ)) (i : ℕ) (text other : List ℕ)
        → slice_get texts i ≡ Some text → slice_get texts i ≡ Some other → text ≡ other }
{}

/// Interning adds one text at most, keeps the texts distinct, and each earlier id keeps its text.
pub fn earlier_ids_keep_their_texts()
    ensures kept { (texts : List (List ℕ)) (new earlier : List ℕ) (i : ℕ)
        → slice_get texts i ≡ Some earlier → slice_get (with_text texts new) i ≡ Some earlier }
    ensures one_more { (texts : List (List ℕ)) (new : List ℕ)
        → length (with_text texts new) ≤ length texts + 1 }
    ensures distinct { (texts : List (List ℕ)) (new : List ℕ)
        → IsDistinctTexts texts → IsDistinctTexts (with_text texts new) }
{}

/// Equations whose unknowns can be put in an order in which each is computed from earlier ones alone have exactly one
/// solution. Unknowns are compared by a test.
pub fn ordered_equations_have_one_solution<I, X>()
    ensures { (same : I → I → Bool) → ((i j : I) → IsTrue (same i j) ↔ (i ≡ j))
        → (nothing : X) (step : (I → X) → I → X) (unknowns : List I)
        → IsOrdered nothing step unknowns → HasOneSolution nothing step unknowns }
{}

/// The vertices from which a source can be reached are the least set that is closed: each test whose set is closed holds
/// there. They are those with a path to a source. In a finite graph there is a test for them.
pub fn reaching_is_least_and_decided()
    ensures closed { (is_source : ℕ → Bool) (is_edge : ℕ → ℕ → Bool)
        → IsClosed is_source is_edge (Reaches is_source is_edge) }
    ensures least { (is_source : ℕ → Bool) (is_edge : ℕ → ℕ → Bool) (test : ℕ → Bool)
        → IsClosed is_source is_edge (λ n. IsTrue (test n))
        → (n : ℕ) → Reaches is_source is_edge n → IsTrue (test n) }
    ensures by_path { (is_source : ℕ → Bool) (is_edge : ℕ → ℕ → Bool) (n : ℕ)
        → Reaches is_source is_edge n ↔ ((rest : List ℕ) × IsPath is_source is_edge (n ∷ rest)) }
    ensures decided { (is_source : ℕ → Bool) (is_edge : ℕ → ℕ → Bool) (universe : List ℕ)
        → IsWithin universe is_source is_edge → IsDecided is_source is_edge }
{}

/// There is one least path from some starts to a source at most, and one least cycle.
pub fn one_least_path()
    ensures path { (is_start is_source : ℕ → Bool) (is_edge : ℕ → ℕ → Bool) (path other : List ℕ)
        → IsLeastPath is_start is_source is_edge path → IsLeastPath is_start is_source is_edge other → path ≡ other }
    ensures cycle { (is_edge : ℕ → ℕ → Bool) (cycle other : List ℕ)
        → IsLeastCycle is_edge cycle → IsLeastCycle is_edge other → cycle ≡ other }
{}

/// Above a node of a tree stand its parent and what is above that one; above a node without a parent stands nothing.
pub fn ancestors_step_by_step<V>()
    ensures root { (t : Tree V) (n : ℕ) → parent_of t n ≡ None → ancestors t n ≡ [] }
    ensures child { (t : Tree V) (n p : ℕ) → IsTree t → parent_of t n ≡ Some p
        → ancestors t n ≡ p ∷ ancestors t p }
{}

/// In preorder the nodes of a subtree stand together, behind its root; a child stands at its place among its parent's items.
pub fn subtrees_stand_together<V>()
    ensures child { (t : Tree V) (p place c : ℕ) → IsTree t → item_at t p place ≡ Some (Child c)
        → (parent_of t c ≡ Some p) × (place_of t c ≡ place) × (p < c) × (c < length t) }
    ensures item { (t : Tree V) (p c : ℕ) → IsTree t → parent_of t c ≡ Some p → item_at t p (place_of t c) ≡ Some (Child c) }
    ensures parent { (t : Tree V) (n : ℕ) → IsTree t → n + 1 < length t
        → (p : ℕ) × (parent_of t (n + 1) ≡ Some p) × (p < n + 1) }
    ensures in_order { (t : Tree V) (p i j c d : ℕ) → IsTree t → item_at t p i ≡ Some (Child c)
        → item_at t p j ≡ Some (Child d) → i < j → c < d }
    ensures whole { (t : Tree V) (n : ℕ) → IsTree t → n < length t → IsInSubtree t 0 n }
    ensures behind { (t : Tree V) (m n : ℕ) → IsTree t → IsInSubtree t m n → m ≤ n }
    ensures inner { (t : Tree V) (m q n : ℕ) → IsTree t → IsInSubtree t m q → IsInSubtree t q n → IsInSubtree t m n }
    ensures together { (t : Tree V) (m n y : ℕ) → IsTree t → IsInSubtree t m n → m ≤ y → y ≤ n → IsInSubtree t m y }
{}

/// Where its terminals are made plain, a tree keeps all else: rules, parents, places, coordinates, children and ancestors. It is
/// a tree then exactly where it was one.
pub fn plain_trees_keep_all_but_terminals()
    ensures count { (texts : List (List ℕ)) (t : Tree Value) → length (plain_tree texts t) ≡ length t }
    ensures rules { (texts : List (List ℕ)) (t : Tree Value) (n : ℕ) → rule_at (plain_tree texts t) n ≡ rule_at t n }
    ensures parents { (texts : List (List ℕ)) (t : Tree Value) (n : ℕ) → parent_of (plain_tree texts t) n ≡ parent_of t n }
    ensures places { (texts : List (List ℕ)) (t : Tree Value) (n : ℕ) → place_of (plain_tree texts t) n ≡ place_of t n }
    ensures coordinates { (texts : List (List ℕ)) (t : Tree Value) (n : ℕ) (part : CoordPart)
        → coordinate (plain_tree texts t) n part ≡ coordinate t n part }
    ensures items { (texts : List (List ℕ)) (t : Tree Value) (n : ℕ)
        → items_of (plain_tree texts t) n ≡ map (plain_item texts) (items_of t n) }
    ensures children { (texts : List (List ℕ)) (t : Tree Value) (n : ℕ) → children (plain_tree texts t) n ≡ children t n }
    ensures ancestors { (texts : List (List ℕ)) (t : Tree Value) (n : ℕ) → ancestors (plain_tree texts t) n ≡ ancestors t n }
    ensures tree { (texts : List (List ℕ)) (t : Tree Value) → IsTree (plain_tree texts t) ↔ IsTree t }
{}

/// Over a tree, a step that asks at a node's children alone has exactly one function.
pub fn one_function_from_children<V, X>()
    ensures step { (t : Tree V) (nothing : X) (step : (ℕ → X) → ℕ → X) → IsTree t → AsksBelow t step
        → (n : ℕ) → n < length t
        → from_children t nothing step n ≡ step (from_children t nothing step) n }
    ensures only { (t : Tree V) (nothing : X) (step : (ℕ → X) → ℕ → X) → IsTree t → AsksBelow t step
        → (f : ℕ → X) → ((n : ℕ) → n < length t → f n ≡ step f n)
        → (n : ℕ) → n < length t → f n ≡ from_children t nothing step n }
{}

/// Of two origins one is at most the other; the order is transitive, and only equal origins are at most each other.
pub fn origins_are_in_order()
    ensures total { (o p : Origin) → IsAtMost o p ⊎ IsAtMost p o }
    ensures transitive { (o p q : Origin) → IsAtMost o p → IsAtMost p q → IsAtMost o q }
    ensures antisymmetric { (o p : Origin) → IsAtMost o p → IsAtMost p o → o ≡ p }
{}

/// An operation whose arguments are of the types of a row of its table, or Bad, gives a value of the row's type, or Bad: typed
/// arguments never fail to fit. `fails` makes the Bad value of an operation that fails first.
pub fn typed_operations_keep_their_types()
    ensures { (texts : List (List ℕ)) (patterns : List TextPattern) (fails : BadKind → Plain) → ((why : BadKind) → plain_type (fails why) ≡ None)
        → (o : Op) (types : List ValueType) (gives : ValueType) (values : List Plain)
        → Takes patterns o types gives → AllZip IsOfType types values → IsOfType gives (operate texts patterns fails o values) }
{}
