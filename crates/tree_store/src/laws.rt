//! Laws of trees that grow. Each function does nothing; what is proved is its contract.
ghost use Rattle.std.specs.Prelude.{◌≡◌, ◌+◌, ◌<◌, ℕ, Option, Some, length};
ghost use Rattle.lido_base.specs.Tree.{Tree, IsTree, Item, Leaf, ancestors, item_at, parent_of, with_item, with_node};
ghost use Rattle.tree_store.specs.Growth.{IsEmptyOrTree, IsNext, IsOpen};

/// What is added where preorder can continue makes a tree of a tree.
pub fn growing_keeps_a_tree<V>()
    ensures node { (t : Tree V) (rule : ℕ) (parent : Option ℕ) (line column : ℕ) → IsEmptyOrTree t → IsNext t parent
        → IsTree (with_node t rule parent line column) }
    ensures terminal { (t : Tree V) (p : ℕ) (v : V) → IsEmptyOrTree t → IsOpen t p
        → IsTree (with_item t p (Leaf v)) }
{}

/// Which nodes can still get items: the root always; a node that was just added, and its parent after it; whatever gets a
/// terminal, and what could get items before it; and the parent of each that can.
pub fn open_nodes<V>()
    ensures node { (t : Tree V) (p : ℕ) → IsEmptyOrTree t → IsOpen t p → p < length t }
    ensures root { (t : Tree V) → IsTree t → IsOpen t 0 }
    ensures upwards { (t : Tree V) (p q : ℕ) → IsTree t → IsOpen t p → parent_of t p ≡ Some q → IsOpen t q }
    ensures added { (t : Tree V) (rule : ℕ) (parent : Option ℕ) (line column : ℕ) → IsOpen (with_node t rule parent line column) (length t) }
    ensures parent { (t : Tree V) (rule p line column : ℕ) → IsTree t → IsOpen t p → IsOpen (with_node t rule (Some p) line column) p }
    ensures terminal { (t : Tree V) (p q : ℕ) (v : V) → IsTree t → IsOpen t q
        → IsOpen (with_item t p (Leaf v)) q }
{}

/// A node that is added is a node more. It changes no node's parent and ancestors, and no item that stood at a place.
pub fn growing_keeps_what_stands<V>()
    ensures count { (t : Tree V) (rule : ℕ) (parent : Option ℕ) (line column : ℕ) → length (with_node t rule parent line column) ≡ length t + 1 }
    ensures parents { (t : Tree V) (rule p line column n : ℕ) → n < length t
        → parent_of (with_node t rule (Some p) line column) n ≡ parent_of t n }
    ensures ancestors { (t : Tree V) (rule p line column n : ℕ) → IsTree t → n < length t
        → ancestors (with_node t rule (Some p) line column) n ≡ ancestors t n }
    ensures places { (t : Tree V) (rule p line column n place : ℕ) (x : Item V) → item_at t n place ≡ Some x
        → item_at (with_node t rule (Some p) line column) n place ≡ Some x }
{}
