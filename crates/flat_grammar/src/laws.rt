//! Laws of the definitions: functions that do nothing, whose contracts are the laws.
ghost use Rattle.std.specs.Prelude.{◌≡◌, ◌<◌, ◌≤◌, ◌+◌, ◌-◌, ℕ, Bool, IsTrue, List, length, map, flat_map, sum_by, slice_get, Contains};
ghost use Rattle.lido_base.specs.Environment.{Environment};
ghost use Rattle.lido_base.specs.Operations.{operate, unless_bad, chosen, last};
ghost use Rattle.lido_base.specs.Plain.{Plain, plain_tree};
ghost use Rattle.lido_base.specs.declared.value.Value.{Value as Terminal};
ghost use Rattle.lido_base.specs.Tree.{Tree, IsTree};
ghost use Rattle.lido_base.specs.declared.operation.Op.{Op as Operation};
ghost use Rattle.lido_base.specs.declared.ids.SymId.{SymId as Symbol};
ghost use Rattle.lido_base.specs.declared.ids.AttrId.{AttrId as Attribute};
ghost use Rattle.flat_grammar.specs.declared.flat.Occ.{Occ as Occurrence};
ghost use Rattle.flat_grammar.specs.declared.flat.FlatSymbol.{FlatSymbol};
ghost use Rattle.flat_grammar.specs.declared.flat.FlatRule.{FlatRule};
ghost use Rattle.flat_grammar.specs.declared.flat.FlatExpr.{FlatExpr as Expression};
ghost use Rattle.flat_grammar.specs.declared.flat.FlatExpr.TheVariants as expr;
ghost use Rattle.flat_grammar.specs.declared.plan.Label.{Label};
ghost use Rattle.flat_grammar.specs.declared.plan.PlanItem.{PlanItem};
ghost use Rattle.flat_grammar.specs.declared.plan.PlanItem.TheVariants.{Eval};
ghost use Rattle.flat_grammar.specs.declared.plan.VisitClass.{VisitClass};
ghost use Rattle.flat_grammar.specs.Rules.{reads, terminals_of};
ghost use Rattle.flat_grammar.specs.Fitting.{cells, own_cells, IsFitting};
ghost use Rattle.flat_grammar.specs.FlatTrees.{IsFlatTree};
ghost use Rattle.flat_grammar.specs.Instances.{IsGrown};
ghost use Rattle.flat_grammar.specs.WellFormed.{IsWellFormed};
ghost use Rattle.flat_grammar.specs.declared.flat.Shape.{Shape};
ghost use Rattle.flat_grammar.specs.FlatAttribution.{value_of, fails};
ghost use Rattle.flat_grammar.specs.Construction.{IsChosen, IsConstructed};
ghost use Rattle.flat_grammar.specs.Dependencies.{IDS, IsClosed, AreInducedRows};
ghost use Rattle.flat_grammar.specs.Partition.{kind_of_class, HasKind, IsPeeled, IsInClass, IsClass, AreVisits};
ghost use Rattle.flat_grammar.specs.Cycles.{EDP, IsExtended};
ghost use Rattle.flat_grammar.specs.SoundPlan.{goals_of, IsSoundSequence, IsSound, IsUnsound};
ghost use Rattle.flat_grammar.specs.WholeOrder.{Instance, segment, sequence_at, item_order, order};

/// The induced dependencies are the least: any two relations that feed each other as they do hold them.
pub fn induced_dependencies_are_least()
    ensures { (rules : List FlatRule) (p : FlatRule → Occurrence → Occurrence → Bool) (s : Symbol → Attribute → Attribute → Bool)
        → IsClosed rules (λ r u v. IsTrue (p r u v)) (λ x a b. IsTrue (s x a b))
        → (x : Symbol) (a b : Attribute) → IDS rules x a b → IsTrue (s x a b) }
{}

/// More rules, or the same in another order, keep each induced dependency.
pub fn induced_dependencies_grow()
    ensures { (rules more : List FlatRule) → ((r : FlatRule) → Contains rules r → Contains more r)
        → (x : Symbol) (a b : Attribute) → IDS rules x a b → IDS more x a b }
{}

/// What is peeled stays peeled.
pub fn peeling_grows()
    ensures { (symbols : List FlatSymbol) (rules : List FlatRule) (x : Symbol) (j k : ℕ) (a : Attribute)
        → j ≤ k → IsPeeled symbols rules x j a → IsPeeled symbols rules x k a }
{}

/// An attribute is in one class at most.
pub fn classes_are_disjoint()
    ensures { (symbols : List FlatSymbol) (rules : List FlatRule) (x : Symbol) (j k : ℕ) (a : Attribute)
        → IsInClass symbols rules x j a → IsInClass symbols rules x k a → j ≡ k }
{}

/// A class has attributes of its kind alone.
pub fn classes_have_one_kind()
    ensures { (symbols : List FlatSymbol) (rules : List FlatRule) (x : Symbol) (k : ℕ) (a : Attribute)
        → IsInClass symbols rules x k a → HasKind symbols x (kind_of_class k) a }
{}

/// A class has one ascending list.
pub fn class_is_one_list()
    ensures { (symbols : List FlatSymbol) (rules : List FlatRule) (x : Symbol) (k : ℕ) (attrs others : List Attribute)
        → IsClass symbols rules x k attrs → IsClass symbols rules x k others → attrs ≡ others }
{}

/// A nonterminal has one row of visits.
pub fn symbol_has_one_row_of_visits()
    ensures { (symbols : List FlatSymbol) (rules : List FlatRule) (x : Symbol) (row other : List VisitClass)
        → AreVisits symbols rules x row → AreVisits symbols rules x other → row ≡ other }
{}

/// An edge of the extended dependencies has one label.
pub fn edge_has_one_label()
    ensures { (symbols : List FlatSymbol) (rules : List FlatRule) (r : FlatRule) (u v : Occurrence) (label other : Label)
        → EDP symbols rules r u v label → EDP symbols rules r u v other → label ≡ other }
{}

/// Each edge of the extended dependencies has a label, where there are rows of the induced dependencies.
pub fn edge_has_a_label()
    ensures { (symbols : List FlatSymbol) (rules : List FlatRule) (rows : List (List ℕ)) → AreInducedRows symbols rules rows
        → (r : FlatRule) (u v : Occurrence) → IsExtended symbols rules r u v → (label : Label) × EDP symbols rules r u v label }
{}

/// A sound sequence evaluates each goal of its rule at exactly one place.
pub fn each_goal_is_evaluated_once()
    ensures { (symbols : List FlatSymbol) (visits : List (List VisitClass)) (r : FlatRule) (seq : List PlanItem)
        → IsSoundSequence symbols visits r seq → (o : Occurrence) → Contains (goals_of r) o
        → (place : ℕ) × (slice_get seq place ≡ Some (Eval o)) × ((other : ℕ) → slice_get seq other ≡ Some (Eval o) → other ≡ place) }
{}

/// A sound sequence evaluates nothing but goals of its rule.
pub fn goals_alone_are_evaluated()
    ensures { (symbols : List FlatSymbol) (visits : List (List VisitClass)) (r : FlatRule) (seq : List PlanItem)
        → IsSoundSequence symbols visits r seq → (place : ℕ) (o : Occurrence) → slice_get seq place ≡ Some (Eval o)
        → Contains (goals_of r) o }
{}

/// A plan has one first fault at most.
pub fn plan_has_one_first_fault()
    ensures { (symbols : List FlatSymbol) (rules : List FlatRule) (visits : List (List VisitClass)) (seqs : List (List PlanItem))
        (i place clause j other_place other : ℕ)
        → IsUnsound symbols rules visits seqs i place clause → IsUnsound symbols rules visits seqs j other_place other
        → (i ≡ j) × (place ≡ other_place) × (clause ≡ other) }
{}

/// A sound plan has no fault.
pub fn sound_plan_has_no_fault()
    ensures { (symbols : List FlatSymbol) (rules : List FlatRule) (visits : List (List VisitClass)) (seqs : List (List PlanItem))
        → IsSound symbols rules visits seqs → (i place clause : ℕ) → ¬ IsUnsound symbols rules visits seqs i place clause }
{}

/// What a visit of a node evaluates: along its segment, each evaluation itself and each visit of a child what that evaluates.
pub fn order_goes_along_the_segment<V>()
    ensures { (t : Tree V) (seqs : List (List PlanItem)) → IsTree t → (n v : ℕ) → n < length t
        → order t seqs n v ≡ flat_map (item_order t seqs (order t seqs) n) (segment (v - 1) (sequence_at t seqs n)) }
{}

/// The construction chooses one item at most.
pub fn one_item_is_chosen()
    ensures { (symbols : List FlatSymbol) (rules : List FlatRule) (visits : List (List VisitClass)) (r : FlatRule)
        (before : List PlanItem) (item other : PlanItem)
        → IsChosen symbols rules visits r before item → IsChosen symbols rules visits r before other → item ≡ other }
{}

/// The construction gives a rule one sequence at most.
pub fn one_sequence_is_constructed()
    ensures { (symbols : List FlatSymbol) (rules : List FlatRule) (visits : List (List VisitClass)) (r : FlatRule)
        (seq other : List PlanItem)
        → IsConstructed symbols rules visits r seq → IsConstructed symbols rules visits r other → seq ≡ other }
{}

/// The reads of a call, an IF or an ORDER are those of its arguments.
pub fn reads_go_down_the_arguments()
    ensures call { (comp : ℕ) (op : Operation) (args : List Expression) → reads (expr.Apply comp op args) ≡ flat_map reads args }
    ensures choice { (args : List Expression) → reads (expr.If args) ≡ flat_map reads args }
    ensures order { (args : List Expression) → reads (expr.Order args) ≡ flat_map reads args }
{}

/// The terminals of a call, an IF or an ORDER are those of its arguments.
pub fn terminals_go_down_the_arguments()
    ensures call { (comp : ℕ) (op : Operation) (args : List Expression)
        → terminals_of (expr.Apply comp op args) ≡ flat_map terminals_of args }
    ensures choice { (args : List Expression) → terminals_of (expr.If args) ≡ flat_map terminals_of args }
    ensures order { (args : List Expression) → terminals_of (expr.Order args) ≡ flat_map terminals_of args }
{}

/// The text cells of a call, an IF or an ORDER are its own and those of its arguments.
pub fn text_cells_go_down_the_arguments()
    ensures call { (comp : ℕ) (op : Operation) (args : List Expression)
        → cells (expr.Apply comp op args) ≡ own_cells op (length args) + sum_by cells args }
    ensures choice { (args : List Expression) → cells (expr.If args) ≡ sum_by cells args }
    ensures order { (args : List Expression) → cells (expr.Order args) ≡ sum_by cells args }
{}

/// The value of a call, an IF or an ORDER is made of the values of its arguments.
pub fn values_go_down_the_arguments()
    ensures call { (env : Environment) (t : Tree Plain) (node_of : List ℕ) (B : Instance → Plain) (origin n : ℕ)
        (comp : ℕ) (op : Operation) (args : List Expression)
        → value_of env t node_of B origin n (expr.Apply comp op args)
        ≡ operate env.texts env.patterns (fails env t node_of B origin n comp) op (map (value_of env t node_of B origin n) args) }
    ensures choice { (env : Environment) (t : Tree Plain) (node_of : List ℕ) (B : Instance → Plain) (origin n : ℕ)
        (args : List Expression)
        → value_of env t node_of B origin n (expr.If args) ≡ chosen (map (value_of env t node_of B origin n) args) }
    ensures order { (env : Environment) (t : Tree Plain) (node_of : List ℕ) (B : Instance → Plain) (origin n : ℕ) (args : List Expression)
        → (let values = map (value_of env t node_of B origin n) args in
        value_of env t node_of B origin n (expr.Order args) ≡ unless_bad values (last values)) }
{}

/// The flat tree of a written tree that fits the grammar is one of the grammar: it has at each node what the node's rule says.
pub fn flat_trees_are_grown()
    ensures plain { (symbols : List FlatSymbol) (rules : List FlatRule) (shapes : List Shape) (root : Symbol)
        (written flat : Tree Plain) (node_of : List ℕ)
        → IsWellFormed symbols rules shapes root → IsFitting symbols rules shapes root written
        → IsFlatTree rules shapes written flat node_of
        → IsGrown symbols rules flat root }
    ensures stored { (symbols : List FlatSymbol) (rules : List FlatRule) (shapes : List Shape) (root : Symbol)
        (texts : List (List ℕ)) (written flat : Tree Terminal) (node_of : List ℕ)
        → IsWellFormed symbols rules shapes root → IsFitting symbols rules shapes root (plain_tree texts written)
        → IsFlatTree rules shapes written flat node_of
        → IsGrown symbols rules flat root }
{}
