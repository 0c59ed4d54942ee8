//! The walk along the nodes of the written tree.
ghost use Rattle.std.specs.Prelude.{◌≡◌, ◌+◌, ◌<◌, ◌≤◌, ℕ, false, true, Contains, IfOk, OnOk, Some, length, slice_get, All};
ghost use Rattle.lido_base.specs.Tree.{IsTree, Child, ancestors, item_at, parent_of, place_of, rule_at};
ghost use Rattle.flat_grammar.specs.declared.flat.Shape.{Shape};
ghost use Rattle.flat_grammar.specs.Rules.{HasRule};
ghost use Rattle.flat_grammar.specs.WellFormed.{cell_of};
ghost use Rattle.flat_grammar.specs.FlatTrees.{IsFlatTree};
ghost use Rattle.flat_grammar.specs.declared.flat.FlatRule.{FlatRule};
ghost use Rattle.lido_base.specs.declared.ids.RuleId.{RuleId as Id};
ghost use Rattle.tree_flattener.specs.Drafts.{IsWalk, HasForm, IsAttached, IsClosed, IsNumbered, IsOnPath, IsPlaced, Suits, most_nodes};
ghost use Rattle.tree_flattener.specs.Forms.{IsForm, AreForms, AreCellRules};

use crate::draft::{Draft, Spot, add};
use crate::forms::{Cells, Form};
use crate::terminals::add_terminals;
use flat_grammar::Flat;
use lido_base::{Memory, NodeId, RuleId, SymId};
use tree_store::Tree;

/// The form of a written node.
fn form_at<'a>(flat: &Flat, forms: &'a [Form], written: &Tree, n: u32) -> &'a Form
    requires forms { AreForms flat.now.symbols flat.now.rules flat.now.shapes forms.now }
    requires suits { Suits flat.now.symbols flat.now.rules flat.now.shapes written.now }
    requires inside { n < length written.now }
    ensures { HasForm flat.now.symbols flat.now.rules flat.now.shapes written.now (λ shape. IsForm flat.now.symbols flat.now.rules shape result.now) n }
{
    &forms[written.rule(NodeId(n)).0 as usize]
}

/// The last items of a plain node are terminals.
fn close_plain(
    flat: &Flat,
    written: &Tree,
    draft: &mut Draft,
    at: Spot,
    width: usize,
) -> Result<(), Memory>
    requires walk { IsWalk flat.now.symbols flat.now.rules flat.now.shapes written.now draft.old at }
    requires placed { IsPlaced written.now draft.old.flat draft.old.node_of }
    requires all_met { (k c : ℕ) → item_at written.now at.node k ≡ Some (Child c) → c < length draft.old.flat_of }
    requires plain { HasForm flat.now.symbols flat.now.rules flat.now.shapes written.now (λ shape. (shape.list ≡ false) × (width ≡ length shape.right)) at.node }
    ensures closed { OnOk result (IsClosed flat.now.symbols flat.now.rules flat.now.shapes written.now draft.old.flat draft.old.node_of draft.old.flat_of draft.new.flat draft.new.node_of at.node) }
    ensures placed { OnOk result (IsPlaced written.now draft.new.flat draft.new.node_of) }
    ensures same { draft.new.flat_of ≡ draft.old.flat_of }
{
    add_terminals(written, draft, at, width as u32)?;
    Ok(())
}

/// Behind the last element of a list stands the end cell.
fn close_list(
    flat: &Flat,
    written: &Tree,
    draft: &mut Draft,
    at: Spot,
    cells: &Cells,
) -> Result<(), Memory>
    requires walk { IsWalk flat.now.symbols flat.now.rules flat.now.shapes written.now draft.old at }
    requires placed { IsPlaced written.now draft.old.flat draft.old.node_of }
    requires all_met { (k c : ℕ) → item_at written.now at.node k ≡ Some (Child c) → c < length draft.old.flat_of }
    requires list { HasForm flat.now.symbols flat.now.rules flat.now.shapes written.now (λ shape. (shape.list ≡ true) × AreCellRules flat.now.rules (cell_of flat.now.rules shape) cells.now) at.node }
    ensures closed { OnOk result (IsClosed flat.now.symbols flat.now.rules flat.now.shapes written.now draft.old.flat draft.old.node_of draft.old.flat_of draft.new.flat draft.new.node_of at.node) }
    ensures placed { OnOk result (IsPlaced written.now draft.new.flat draft.new.node_of) }
    ensures same { draft.new.flat_of ≡ draft.old.flat_of }
{
    let list = NodeId(at.node);
    add(
        draft,
        cells.end,
        at.tail,
        at.node,
        written.line(list),
        written.column(list),
    )?;
    Ok(())
}

/// Adds what is behind the last child.
pub fn close(
    flat: &Flat,
    forms: &[Form],
    written: &Tree,
    draft: &mut Draft,
    at: Spot,
) -> Result<(), Memory>
    requires walk { IsWalk flat.now.symbols flat.now.rules flat.now.shapes written.now draft.old at }
    requires placed { IsPlaced written.now draft.old.flat draft.old.node_of }
    requires all_met { (k c : ℕ) → item_at written.now at.node k ≡ Some (Child c) → c < length draft.old.flat_of }
    requires forms { AreForms flat.now.symbols flat.now.rules flat.now.shapes forms.now }
    ensures closed { OnOk result (IsClosed flat.now.symbols flat.now.rules flat.now.shapes written.now draft.old.flat draft.old.node_of draft.old.flat_of draft.new.flat draft.new.node_of at.node) }
    ensures placed { OnOk result (IsPlaced written.now draft.new.flat draft.new.node_of) }
    ensures same { draft.new.flat_of ≡ draft.old.flat_of }
{
    match form_at(flat, forms, written, at.node) {
        Form::Plain { width } => close_plain(flat, written, draft, at, *width),
        Form::Chain(cells) => close_list(flat, written, draft, at, cells),
        Form::Unnamed => unreachable!(),
    }
}

/// Around a node stands its parent, in both trees.
fn around(flat: &Flat, written: &Tree, draft: &Draft, at: Spot) -> Spot
    requires numbered { IsNumbered flat.now.symbols flat.now.rules flat.now.shapes written.now draft.now.flat draft.now.node_of draft.now.flat_of }
    requires met { at.node < length draft.now.flat_of }
    requires within { length draft.now.flat_of ≤ length written.now }
    requires inner { 0 < at.node }
    ensures parent { parent_of written.now at.node ≡ Some result.node }
    ensures tail { (f : ℕ) → slice_get draft.now.flat_of at.node ≡ Some f → parent_of draft.now.flat f ≡ Some result.tail }
    ensures done { result.done ≡ place_of written.now at.node }
{
    let number = draft.flat_of.as_slice()[at.node as usize];
    let Some(parent) = written.parent(NodeId(at.node)) else {
        unreachable!();
    };
    let Some(tail) = draft.flat.parent(NodeId(number)) else {
        unreachable!();
    };
    Spot {
        node: parent.0,
        tail: tail.0,
        done: written.place(NodeId(at.node)),
    }
}

/// Closes the spot's node, and goes to its parent.
fn go_up(
    flat: &Flat,
    forms: &[Form],
    written: &Tree,
    draft: &mut Draft,
    at: Spot,
) -> Result<Spot, Memory>
    requires walk { IsWalk flat.now.symbols flat.now.rules flat.now.shapes written.now draft.old at }
    requires placed { IsPlaced written.now draft.old.flat draft.old.node_of }
    requires all_met { (k c : ℕ) → item_at written.now at.node k ≡ Some (Child c) → c < length draft.old.flat_of }
    requires forms { AreForms flat.now.symbols flat.now.rules flat.now.shapes forms.now }
    requires inner { 0 < at.node }
    ensures walk { IfOk result (λ next. IsWalk flat.now.symbols flat.now.rules flat.now.shapes written.now draft.new next) }
    ensures placed { OnOk result (IsPlaced written.now draft.new.flat draft.new.node_of) }
    ensures parent { IfOk result (λ next. parent_of written.now at.node ≡ Some next.node) }
    ensures same { draft.new.flat_of ≡ draft.old.flat_of }
{
    close(flat, forms, written, draft, at)?;
    Ok(around(flat, written, draft, at))
}

/// Closes nodes up to one around them, which is `to`.
pub fn climb(
    flat: &Flat,
    forms: &[Form],
    written: &Tree,
    draft: &mut Draft,
    from: Spot,
    to: u32,
) -> Result<Spot, Memory>
    requires walk { IsWalk flat.now.symbols flat.now.rules flat.now.shapes written.now draft.old from }
    requires placed { IsPlaced written.now draft.old.flat draft.old.node_of }
    requires forms { AreForms flat.now.symbols flat.now.rules flat.now.shapes forms.now }
    requires around { IsOnPath written.now from.node to }
    requires all_met { (m : ℕ) → IsOnPath written.now from.node m → Contains (ancestors written.now m) to
        → (k c : ℕ) → item_at written.now m k ≡ Some (Child c) → c < length draft.old.flat_of }
    ensures walk { IfOk result (λ at. IsWalk flat.now.symbols flat.now.rules flat.now.shapes written.now draft.new at) }
    ensures placed { OnOk result (IsPlaced written.now draft.new.flat draft.new.node_of) }
    ensures at { IfOk result (λ at. at.node ≡ to) }
    ensures same { draft.new.flat_of ≡ draft.old.flat_of }
{
    let mut at = from;
    while at.node != to {
        at = go_up(flat, forms, written, draft, at)?;
    }
    Ok(at)
}

/// The left side of a written node's rule.
fn symbol_of(flat: &Flat, written: &Tree, n: u32) -> SymId
    requires suits { Suits flat.now.symbols flat.now.rules flat.now.shapes written.now }
    requires inside { n < length written.now }
    ensures { (r : FlatRule) → HasRule flat.now.rules written.now n r → result ≡ r.left }
{
    flat.rules.as_slice()[written.rule(NodeId(n)).0 as usize].left
}

/// The rule of a cell with an element of the symbol, if there is one.
fn element_rule(cells: &Cells, symbol: SymId) -> Option<RuleId>
    ensures { (i : Id) → slice_get cells.now.elements symbol.0 ≡ Some (Some i) → result ≡ Some i }
{
    cells
        .elements
        .as_slice()
        .get(symbol.0 as usize)
        .copied()
        .flatten()
}

/// Adds an element of a list, below a cell.
fn attach_element(
    flat: &Flat,
    written: &Tree,
    draft: &mut Draft,
    at: Spot,
    cells: &Cells,
    n: u32,
) -> Result<u32, Memory>
    requires walk { IsWalk flat.now.symbols flat.now.rules flat.now.shapes written.now draft.old at }
    requires placed { IsPlaced written.now draft.old.flat draft.old.node_of }
    requires list { HasForm flat.now.symbols flat.now.rules flat.now.shapes written.now (λ shape. (shape.list ≡ true) × AreCellRules flat.now.rules (cell_of flat.now.rules shape) cells.now) at.node }
    requires next { n ≡ length draft.old.flat_of }
    requires child { parent_of written.now n ≡ Some at.node }
    ensures attached { IfOk result (λ f. IsAttached flat.now.symbols flat.now.rules flat.now.shapes written.now draft.old.flat draft.old.node_of draft.old.flat_of draft.new.flat draft.new.node_of at.node n f) }
    ensures placed { OnOk result (IsPlaced written.now draft.new.flat draft.new.node_of) }
    ensures same { draft.new.flat_of ≡ draft.old.flat_of }
{
    let Some(rule) = element_rule(cells, symbol_of(flat, written, n)) else {
        unreachable!();
    };
    let (list, element) = (NodeId(at.node), NodeId(n));
    let (line, column) = (written.line(list), written.column(list));
    let (own_line, own_column) = (written.line(element), written.column(element));
    let cell = add(draft, rule, at.tail, at.node, line, column)?;
    let number = add(draft, written.rule(element), cell, n, own_line, own_column)?;
    Ok(number)
}

/// Adds a child of a plain node, behind the terminals in front of it.
fn attach_child(
    flat: &Flat,
    written: &Tree,
    draft: &mut Draft,
    at: Spot,
    n: u32,
) -> Result<u32, Memory>
    requires walk { IsWalk flat.now.symbols flat.now.rules flat.now.shapes written.now draft.old at }
    requires placed { IsPlaced written.now draft.old.flat draft.old.node_of }
    requires plain { HasForm flat.now.symbols flat.now.rules flat.now.shapes written.now (λ shape. shape.list ≡ false) at.node }
    requires next { n ≡ length draft.old.flat_of }
    requires child { parent_of written.now n ≡ Some at.node }
    ensures attached { IfOk result (λ f. IsAttached flat.now.symbols flat.now.rules flat.now.shapes written.now draft.old.flat draft.old.node_of draft.old.flat_of draft.new.flat draft.new.node_of at.node n f) }
    ensures placed { OnOk result (IsPlaced written.now draft.new.flat draft.new.node_of) }
    ensures same { draft.new.flat_of ≡ draft.old.flat_of }
{
    let child = NodeId(n);
    let place = written.place(child);
    add_terminals(written, draft, at, place - 1)?;
    let (line, column) = (written.line(child), written.column(child));
    let number = add(draft, written.rule(child), at.tail, n, line, column)?;
    Ok(number)
}

/// Adds a child of the spot's node.
fn attach(
    flat: &Flat,
    forms: &[Form],
    written: &Tree,
    draft: &mut Draft,
    at: Spot,
    n: u32,
) -> Result<u32, Memory>
    requires walk { IsWalk flat.now.symbols flat.now.rules flat.now.shapes written.now draft.old at }
    requires placed { IsPlaced written.now draft.old.flat draft.old.node_of }
    requires forms { AreForms flat.now.symbols flat.now.rules flat.now.shapes forms.now }
    requires next { n ≡ length draft.old.flat_of }
    requires child { parent_of written.now n ≡ Some at.node }
    ensures attached { IfOk result (λ f. IsAttached flat.now.symbols flat.now.rules flat.now.shapes written.now draft.old.flat draft.old.node_of draft.old.flat_of draft.new.flat draft.new.node_of at.node n f) }
    ensures placed { OnOk result (IsPlaced written.now draft.new.flat draft.new.node_of) }
    ensures same { draft.new.flat_of ≡ draft.old.flat_of }
{
    match form_at(flat, forms, written, at.node) {
        Form::Plain { .. } => attach_child(flat, written, draft, at, n),
        Form::Chain(cells) => attach_element(flat, written, draft, at, cells, n),
        Form::Unnamed => unreachable!(),
    }
}

/// Adds a child of the spot's node, and goes to it.
pub fn go_down(
    flat: &Flat,
    forms: &[Form],
    written: &Tree,
    draft: &mut Draft,
    at: Spot,
    n: u32,
) -> Result<Spot, Memory>
    requires walk { IsWalk flat.now.symbols flat.now.rules flat.now.shapes written.now draft.old at }
    requires placed { IsPlaced written.now draft.old.flat draft.old.node_of }
    requires forms { AreForms flat.now.symbols flat.now.rules flat.now.shapes forms.now }
    requires next { n ≡ length draft.old.flat_of }
    requires child { parent_of written.now n ≡ Some at.node }
    ensures walk { IfOk result (λ next. IsWalk flat.now.symbols flat.now.rules flat.now.shapes written.now draft.new next) }
    ensures placed { OnOk result (IsPlaced written.now draft.new.flat draft.new.node_of) }
    ensures at { IfOk result (λ next. next.node ≡ n) }
    ensures more { OnOk result (length draft.new.flat_of ≡ n + 1) }
{
    let number = attach(flat, forms, written, draft, at, n)?;
    draft.flat_of.push(number)?;
    Ok(Spot {
        node: n,
        tail: number,
        done: 0,
    })
}
