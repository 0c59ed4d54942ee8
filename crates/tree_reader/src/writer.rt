//! The parts of a tree's text become its written tree, or its first fault.
ghost use Rattle.std.specs.Prelude.{◌≡◌, ◌⊎◌, ◌+◌, ◌-◌, ◌^◌, ◌<◌, ◌≤◌, ℕ, List, Option, None, Some, true, false, length, [], ◌∷◌, ◌++◌, option_to_list, Ok, Result, IfOk, OnOk, IfErr};
ghost use Rattle.lido_base.specs.Phases.{Gives};
ghost use Rattle.lido_base.specs.Texts.{IsDistinctTexts};
ghost use Rattle.flat_grammar.specs.Fitting.{IsFitting};
ghost use Rattle.lido_base.specs.Plain.{Plain, plain_tree};
ghost use Rattle.lido_base.specs.Tree.{Tree as Table, IsTree, Leaf, places, with_item, with_node};
ghost use Rattle.lido_base.specs.declared.value.Value.{Value as Terminal};
ghost use Rattle.tree_store.specs.declared.fault.TreeFault.{TreeFault};
ghost use Rattle.tree_reader.specs.declared.part.Coordinates.{Coordinates};
ghost use Rattle.tree_reader.specs.declared.part.Part.{Part};
ghost use Rattle.tree_reader.specs.declared.writer.Open.{Open as OpenNode};
ghost use Rattle.lido_lexer.specs.Lexing.{Gains};
ghost use Rattle.tree_store.specs.Growth.{IsOpen};
ghost use Rattle.tree_reader.specs.Asking.{IsNameTable, asked, shape_at};
ghost use Rattle.tree_reader.specs.WrittenTrees.{Asked, coordinates_of, node_fault, most_nodes, meaning, own};
ghost use Rattle.tree_reader.specs.Language.{Forest, parts_of, IsOneNode};
ghost use Rattle.tree_reader.specs.Elements.{AreElementRows};
ghost use Rattle.tree_reader.specs.Ints.{HasInt};
ghost use Rattle.tree_reader.specs.Tables.{IsRead, IsTable, begins};
ghost use Rattle.tree_reader.specs.Writing.{RefusesIf, StopsAt, IsWritten, FailsAs, IsMeaning, IsFirstPart};

use crate::asking::{is_enough, may_be_node, may_be_root, may_be_value};
use crate::elements::{element_rows, row_at};
use crate::names::{find_named, name_table};
use crate::part::{Coordinates, Part};
use flat_grammar::{Flat, Shape};
use lido_base::{List, Many, NodeId, Strings, Value, ValueType};
use std::alloc::Global;
use tree_store::{Tree, TreeFault};

/// The most nodes that a written tree may have.
const MOST_NODES: u32 = 1_048_576;

/// A node whose closing bracket is still to come.
#[derive(Clone, Copy)]
struct Open {
    /// Its number.
    node: u32,
    /// Its shape, by its place among the shapes.
    shape: usize,
    /// How many children it has.
    has: u32,
}

/// The shape of this place.
fn shape_at(flat: &Flat, k: usize) -> &Shape
    requires { k < length flat.now.shapes }
    ensures { result.now ≡ shape_at flat.now.shapes k }
{
    &flat.shapes.as_slice()[k]
}

/// Adds a terminal to an open node.
fn add_leaf(
    flat: &Flat,
    tree: &mut Tree,
    parent: Open,
    at: u32,
    ty: ValueType,
    value: Value,
) -> Result<Open, TreeFault>
    requires shape { parent.shape < length flat.now.shapes }
    requires is_open { IsOpen tree.old parent.node }
    requires has { parent.has ≡ places tree.old parent.node }
    requires few { parent.has < 2 ^ 32 - 1 }
    ensures grown { IfOk result (λ now. now ≡ record parent { has = parent.has + 1 }) }
    ensures taken { (texts : List (List ℕ)) → OnOk result ((asked flat.now.symbols flat.now.rules flat.now.shapes flat.now.root texts).takes_value parent.shape parent.has ty ≡ true) }
    ensures added { OnOk result (tree.new ≡ with_item tree.old parent.node (Leaf value)) }
    ensures tree { OnOk result (IsTree tree.new) }
    ensures count { length tree.new ≡ length tree.old }
    ensures refused { (texts : List (List ℕ)) → IfErr result (λ e. RefusesIf ((asked flat.now.symbols flat.now.rules flat.now.shapes flat.now.root texts).takes_value parent.shape parent.has ty) at e) }
    ensures place { IfErr result (λ e. (e ≡ TreeFault.Memory) ⊎ (e ≡ TreeFault.WrongChild at)) }
{
    if !may_be_value(flat, shape_at(flat, parent.shape), parent.has as usize, ty) {
        return Err(TreeFault::WrongChild { at });
    }
    match tree.add_terminal(NodeId(parent.node), value) {
        Ok(()) => Ok(Open {
            has: parent.has + 1,
            ..parent
        }),
        Err(_) => Err(TreeFault::Memory),
    }
}

/// Whether an open node may be closed here.
fn close(flat: &Flat, parent: Open, at: u32) -> Result<(), TreeFault>
    requires shape { parent.shape < length flat.now.shapes }
    ensures enough { (texts : List (List ℕ)) → OnOk result ((asked flat.now.symbols flat.now.rules flat.now.shapes flat.now.root texts).is_enough parent.shape parent.has ≡ true) }
    ensures refused { (texts : List (List ℕ)) → IfErr result (λ e. RefusesIf ((asked flat.now.symbols flat.now.rules flat.now.shapes flat.now.root texts).is_enough parent.shape parent.has) at e) }
    ensures place { IfErr result (λ e. e ≡ TreeFault.WrongChild at) }
{
    if is_enough(shape_at(flat, parent.shape), parent.has as usize) {
        Ok(())
    } else {
        Err(TreeFault::WrongChild { at })
    }
}

/// The shape that a child node of this name has, where it may stand there.
fn child_shape(
    flat: &Flat,
    names: &[Option<usize>],
    rows: &[List<bool>],
    strings: &mut Strings,
    count: u32,
    parent: Open,
    at: u32,
    name_at: u32,
    name: &[u8],
) -> Result<usize, TreeFault>
    requires shape { parent.shape < length flat.now.shapes }
    requires few_nodes { count ≤ most_nodes }
    requires table { IsNameTable flat.now.rules flat.now.shapes (length names.now) names.now }
    requires elements { AreElementRows flat.now.shapes rows.now }
    ensures inside { IfOk result (λ k. k < length flat.now.shapes) }
    ensures few { OnOk result (count < most_nodes) }
    ensures named { IfOk result (λ k. (texts : List (List ℕ)) → Gains texts strings.old → length texts ≡ length names.now
        → (asked flat.now.symbols flat.now.rules flat.now.shapes flat.now.root texts).named name.now ≡ Some k) }
    ensures fits { OnOk result ((texts : List (List ℕ)) → Gains texts strings.old → length texts ≡ length names.now
        → node_fault (asked flat.now.symbols flat.now.rules flat.now.shapes flat.now.root texts) parent.shape parent.has count at name_at name.now ≡ None) }
    ensures refused { IfErr result (λ e. (texts : List (List ℕ)) → Gains texts strings.old → length texts ≡ length names.now
        → StopsAt (node_fault (asked flat.now.symbols flat.now.rules flat.now.shapes flat.now.root texts) parent.shape parent.has count at name_at name.now) e) }
    ensures read { (coordinates : Option Coordinates) → IsRead strings.old count (Part.Begin at name_at name.now coordinates) result strings.new }
    ensures few_texts { length strings.new ≤ length strings.old + 1 }
    ensures kept { Gains strings.old strings.new }
    ensures distinct { IsDistinctTexts strings.new }
{
    let k = match find_named(flat, names, strings, name) {
        Ok(Some(k)) => k,
        Ok(None) => return Err(TreeFault::UnknownRule { at: name_at }),
        Err(e) => return Err(e),
    };
    if !may_be_node(
        flat,
        shape_at(flat, parent.shape),
        row_at(rows, parent.shape),
        parent.has as usize,
        shape_at(flat, k),
    ) {
        return Err(TreeFault::WrongChild { at });
    }
    if count >= MOST_NODES {
        return Err(TreeFault::TooMany { what: Many::Nodes });
    }
    Ok(k)
}

/// A number stands among the children of an open node, which is as it is from then on.
fn write_int(
    flat: &Flat,
    tree: &mut Tree,
    parent: Open,
    at: u32,
    value: i64,
) -> Result<Open, TreeFault>
    requires shape { parent.shape < length flat.now.shapes }
    requires is_open { IsOpen tree.old parent.node }
    requires has { parent.has ≡ places tree.old parent.node }
    requires few { parent.has < 2 ^ 32 - 1 }
    ensures goes { IfOk result (λ now. (names texts : List (List ℕ)) (most : ℕ) (outer : List OpenNode) (more : List Part) (answer : Result (Table Plain) TreeFault)
        → IsWritten (asked flat.now.symbols flat.now.rules flat.now.shapes flat.now.root names) texts tree.old (length flat.now.shapes) most (Some parent) outer (Part.Int at value ∷ more) answer
        → IsWritten (asked flat.now.symbols flat.now.rules flat.now.shapes flat.now.root names) texts tree.new (length flat.now.shapes) (most + 1) (Some now) outer more answer) }
    ensures refused { IfErr result (λ e. (names texts : List (List ℕ)) (most : ℕ) (outer : List OpenNode) (more : List Part) (answer : Result (Table Plain) TreeFault)
        → IsWritten (asked flat.now.symbols flat.now.rules flat.now.shapes flat.now.root names) texts tree.old (length flat.now.shapes) most (Some parent) outer (Part.Int at value ∷ more) answer
        → FailsAs answer e) }
    ensures place { IfErr result (λ e. (e ≡ TreeFault.Memory) ⊎ (e ≡ TreeFault.WrongChild at)) }
    ensures count { length tree.new ≡ length tree.old }
{
    add_leaf(flat, tree, parent, at, ValueType::Int, Value::Int(value))
}

/// A string stands among the children of an open node, which is as it is from then on.
fn write_text(
    flat: &Flat,
    strings: &mut Strings,
    tree: &mut Tree,
    parent: Open,
    at: u32,
    text: &[u8],
) -> Result<Open, TreeFault>
    requires shape { parent.shape < length flat.now.shapes }
    requires is_open { IsOpen tree.old parent.node }
    requires has { parent.has ≡ places tree.old parent.node }
    requires few { parent.has < 2 ^ 32 - 1 }
    ensures goes { IfOk result (λ now. (names : List (List ℕ)) (most : ℕ) (outer : List OpenNode) (more : List Part) (answer : Result (Table Plain) TreeFault)
        → IsWritten (asked flat.now.symbols flat.now.rules flat.now.shapes flat.now.root names) strings.old tree.old (length flat.now.shapes) most (Some parent) outer (Part.Str at text.now ∷ more) answer
        → IsWritten (asked flat.now.symbols flat.now.rules flat.now.shapes flat.now.root names) strings.new tree.new (length flat.now.shapes) (most + 1) (Some now) outer more answer) }
    ensures refused { IfErr result (λ e. (names : List (List ℕ)) (most : ℕ) (outer : List OpenNode) (more : List Part) (answer : Result (Table Plain) TreeFault)
        → IsWritten (asked flat.now.symbols flat.now.rules flat.now.shapes flat.now.root names) strings.old tree.old (length flat.now.shapes) most (Some parent) outer (Part.Str at text.now ∷ more) answer
        → FailsAs answer e) }
    ensures read { IsRead strings.old (length tree.old) (Part.Str at text.now) result strings.new }
    ensures few_texts { length strings.new ≤ length strings.old + 1 }
    ensures kept { Gains strings.old strings.new }
    ensures distinct { IsDistinctTexts strings.new }
    ensures count { length tree.new ≡ length tree.old }
{
    match strings.intern(text) {
        Ok(id) => add_leaf(flat, tree, parent, at, ValueType::Str, Value::Str(id)),
        Err(_) => Err(TreeFault::Memory),
    }
}

/// Takes the last of the open nodes, if there is one.
fn pop(outer: &mut List<Open>) -> Option<Open>
    ensures last { outer.old ≡ outer.new ++ option_to_list result }
    ensures empty { result ≡ None → outer.old ≡ [] }
{
    outer.items.pop()
}

/// An open node is closed: the one around it is the innermost from then on.
fn write_end(
    flat: &Flat,
    outer: &mut List<Open>,
    parent: Open,
    at: u32,
) -> Result<Option<Open>, TreeFault>
    requires shape { parent.shape < length flat.now.shapes }
    ensures goes { IfOk result (λ next. (names texts : List (List ℕ)) (t : Table Terminal) (most : ℕ) (more : List Part) (answer : Result (Table Plain) TreeFault)
        → IsWritten (asked flat.now.symbols flat.now.rules flat.now.shapes flat.now.root names) texts t (length flat.now.shapes) most (Some parent) outer.old (Part.End at ∷ more) answer
        → IsWritten (asked flat.now.symbols flat.now.rules flat.now.shapes flat.now.root names) texts t (length flat.now.shapes) (most + 1) next outer.new more answer) }
    ensures refused { IfErr result (λ e. (names texts : List (List ℕ)) (t : Table Terminal) (most : ℕ) (more : List Part) (answer : Result (Table Plain) TreeFault)
        → IsWritten (asked flat.now.symbols flat.now.rules flat.now.shapes flat.now.root names) texts t (length flat.now.shapes) most (Some parent) outer.old (Part.End at ∷ more) answer
        → FailsAs answer e) }
    ensures place { IfErr result (λ e. e ≡ TreeFault.WrongChild at) }
{
    match close(flat, parent, at) {
        Ok(()) => Ok(pop(outer)),
        Err(e) => Err(e),
    }
}

/// The line and the column of a node.
fn coordinates_of(tree: &Tree, n: NodeId) -> Coordinates
    requires { n.0 < length tree.now }
    ensures { result ≡ coordinates_of tree.now n.0 }
{
    Coordinates {
        line: tree.line(n),
        column: tree.column(n),
    }
}

/// The coordinates of a node: those behind its name, else those of the node above.
fn own_coordinates(coordinates: Option<Coordinates>, above: Coordinates) -> Coordinates
    ensures { result ≡ own coordinates above }
{
    coordinates.unwrap_or(above)
}

/// A node begins among the children of an open node, which is as it is from then on and has the new one inside it.
fn write_node(
    flat: &Flat,
    names: &[Option<usize>],
    rows: &[List<bool>],
    strings: &mut Strings,
    tree: &mut Tree,
    outer: &mut List<Open>,
    parent: Open,
    at: u32,
    name_at: u32,
    name: &[u8],
    coordinates: Option<Coordinates>,
) -> Result<Open, TreeFault>
    requires table { IsNameTable flat.now.rules flat.now.shapes (length names.now) names.now }
    requires elements { AreElementRows flat.now.shapes rows.now }
    requires shape { parent.shape < length flat.now.shapes }
    requires is_open { IsOpen tree.old parent.node }
    requires has { parent.has ≡ places tree.old parent.node }
    requires few { parent.has < 2 ^ 32 - 1 }
    requires few_nodes { length tree.old ≤ most_nodes }
    ensures goes { IfOk result (λ now. (texts : List (List ℕ)) → Gains texts strings.old → length texts ≡ length names.now
        → (most : ℕ) (more : List Part) (answer : Result (Table Plain) TreeFault)
        → IsWritten (asked flat.now.symbols flat.now.rules flat.now.shapes flat.now.root texts) strings.old tree.old (length flat.now.shapes) most (Some parent) outer.old (Part.Begin at name_at name.now coordinates ∷ more) answer
        → IsWritten (asked flat.now.symbols flat.now.rules flat.now.shapes flat.now.root texts) strings.new tree.new (length flat.now.shapes) (most + 1) (Some now) outer.new more answer) }
    ensures refused { IfErr result (λ e. (texts : List (List ℕ)) → Gains texts strings.old → length texts ≡ length names.now
        → (most : ℕ) (more : List Part) (answer : Result (Table Plain) TreeFault)
        → IsWritten (asked flat.now.symbols flat.now.rules flat.now.shapes flat.now.root texts) strings.old tree.old (length flat.now.shapes) most (Some parent) outer.old (Part.Begin at name_at name.now coordinates ∷ more) answer
        → FailsAs answer e) }
    ensures read { IsRead strings.old (length tree.old) (Part.Begin at name_at name.now coordinates) result strings.new }
    ensures few_texts { length strings.new ≤ length strings.old + 1 }
    ensures count { OnOk result (length tree.new ≡ length tree.old + 1) }
    ensures kept { Gains strings.old strings.new }
    ensures distinct { IsDistinctTexts strings.new }
    ensures few_nodes { OnOk result (length tree.new ≤ most_nodes) }
{
    let count = tree.len();
    let shape = match child_shape(flat, names, rows, strings, count, parent, at, name_at, name) {
        Ok(shape) => shape,
        Err(e) => return Err(e),
    };
    let grown = Open {
        has: parent.has + 1,
        ..parent
    };
    let rule = shape_at(flat, shape).rule;
    let above = NodeId(parent.node);
    let own = own_coordinates(coordinates, coordinates_of(tree, above));
    let Ok(number) = tree.add_node(rule, Some(above), own.line, own.column) else {
        return Err(TreeFault::Memory);
    };
    match outer.push(grown) {
        Ok(()) => Ok(Open {
            node: number.0,
            shape,
            has: 0,
        }),
        Err(_) => Err(TreeFault::Memory),
    }
}

/// The first node, of this name, which is the only one so far.
fn first_node(
    alloc: Global,
    flat: &Flat,
    names: &[Option<usize>],
    strings: &mut Strings,
    name_at: u32,
    name: &[u8],
    coordinates: Option<Coordinates>,
) -> Result<(Tree, Open), TreeFault>
    requires { IsNameTable flat.now.rules flat.now.shapes (length names.now) names.now }
    ensures goes { IfOk result (λ x. (texts : List (List ℕ)) → Gains texts strings.old → length texts ≡ length names.now → (below : Forest) (end : ℕ)
        → IsWritten (asked flat.now.symbols flat.now.rules flat.now.shapes flat.now.root texts) strings.new x.0 (length flat.now.shapes) 0 (Some x.1) [] (parts_of below ++ Part.End end ∷ [])
        (meaning (asked flat.now.symbols flat.now.rules flat.now.shapes flat.now.root texts) name_at name.now coordinates below end)) }
    ensures refused { IfErr result (λ e. (texts : List (List ℕ)) → Gains texts strings.old → length texts ≡ length names.now → (below : Forest) (end : ℕ)
        → FailsAs (meaning (asked flat.now.symbols flat.now.rules flat.now.shapes flat.now.root texts) name_at name.now coordinates below end) e) }
    ensures read { (at : ℕ) → IsRead strings.old 0 (Part.Begin at name_at name.now coordinates) result strings.new }
    ensures few_texts { length strings.new ≤ length strings.old + 1 }
    ensures count { IfOk result (λ x. length x.0 ≡ 1) }
    ensures kept { Gains strings.old strings.new }
    ensures distinct { IsDistinctTexts strings.new }
    ensures few_nodes { IfOk result (λ x. length x.0 ≤ most_nodes) }
{
    let shape = match find_named(flat, names, strings, name) {
        Ok(Some(shape)) => shape,
        Ok(None) => return Err(TreeFault::UnknownRule { at: name_at }),
        Err(e) => return Err(e),
    };
    if !may_be_root(flat, shape_at(flat, shape)) {
        return Err(TreeFault::WrongRoot { at: name_at });
    }
    let Ok(mut tree) = Tree::new(alloc) else {
        return Err(TreeFault::Memory);
    };
    let rule = shape_at(flat, shape).rule;
    let own = own_coordinates(coordinates, Coordinates { line: 0, column: 0 });
    match tree.add_node(rule, None, own.line, own.column) {
        Ok(number) => Ok((
            tree,
            Open {
                node: number.0,
                shape,
                has: 0,
            },
        )),
        Err(_) => Err(TreeFault::Memory),
    }
}

/// One part more of the text is written.
fn write_part(
    flat: &Flat,
    names: &[Option<usize>],
    rows: &[List<bool>],
    strings: &mut Strings,
    tree: &mut Tree,
    outer: &mut List<Open>,
    parent: Open,
    part: &Part,
) -> Result<Option<Open>, TreeFault>
    requires table { IsNameTable flat.now.rules flat.now.shapes (length names.now) names.now }
    requires elements { AreElementRows flat.now.shapes rows.now }
    requires shape { parent.shape < length flat.now.shapes }
    requires is_open { IsOpen tree.old parent.node }
    requires has { parent.has ≡ places tree.old parent.node }
    requires few { parent.has < 2 ^ 32 - 1 }
    requires few_nodes { length tree.old ≤ most_nodes }
    ensures goes { IfOk result (λ next. (texts : List (List ℕ)) → Gains texts strings.old → length texts ≡ length names.now
        → (most : ℕ) (more : List Part) (answer : Result (Table Plain) TreeFault)
        → IsWritten (asked flat.now.symbols flat.now.rules flat.now.shapes flat.now.root texts) strings.old tree.old (length flat.now.shapes) most (Some parent) outer.old (part.now ∷ more) answer
        → IsWritten (asked flat.now.symbols flat.now.rules flat.now.shapes flat.now.root texts) strings.new tree.new (length flat.now.shapes) (most + 1) next outer.new more answer) }
    ensures refused { IfErr result (λ e. (texts : List (List ℕ)) → Gains texts strings.old → length texts ≡ length names.now
        → (most : ℕ) (more : List Part) (answer : Result (Table Plain) TreeFault)
        → IsWritten (asked flat.now.symbols flat.now.rules flat.now.shapes flat.now.root texts) strings.old tree.old (length flat.now.shapes) most (Some parent) outer.old (part.now ∷ more) answer
        → FailsAs answer e) }
    ensures read { IsRead strings.old (length tree.old) part.now result strings.new }
    ensures few_texts { length strings.new ≤ length strings.old + 1 }
    ensures count { OnOk result (length tree.new ≡ length tree.old + begins part.now) }
    ensures kept { Gains strings.old strings.new }
    ensures int { OnOk result (HasInt part.now) }
    ensures few_nodes { OnOk result (length tree.new ≤ most_nodes) }
{
    match part {
        Part::Begin {
            at,
            name_at,
            name,
            coordinates,
        } => {
            match write_node(
                flat,
                names,
                rows,
                strings,
                tree,
                outer,
                parent,
                *at,
                *name_at,
                name.as_slice(),
                *coordinates,
            ) {
                Ok(now) => Ok(Some(now)),
                Err(e) => Err(e),
            }
        }
        Part::Int { at, value } => match write_int(flat, tree, parent, *at, *value) {
            Ok(now) => Ok(Some(now)),
            Err(e) => Err(e),
        },
        Part::Str { at, text } => {
            match write_text(flat, strings, tree, parent, *at, text.as_slice()) {
                Ok(now) => Ok(Some(now)),
                Err(e) => Err(e),
            }
        }
        Part::End { at } => write_end(flat, outer, parent, *at),
    }
}

/// The name of the first part, which begins a node, with its place, its coordinates, and the parts behind it.
fn first_name(parts: &[Part]) -> (u32, &[u8], Option<Coordinates>, &[Part])
    requires { IsOneNode parts.now }
    ensures { IsFirstPart parts.now result.0 result.1.now result.2 result.3.now }
{
    match parts {
        [
            Part::Begin {
                name_at,
                name,
                coordinates,
                ..
            },
            rest @ ..,
        ] => (*name_at, name.as_slice(), *coordinates, rest),
        _ => unreachable!(),
    }
}

/// The written tree of a text's parts: what they mean, and it fits the grammar. A fault is the first one from the left; `Memory` is
/// want of memory. Texts that were in `strings` keep their ids whatever the answer. The names and strings of the parts go behind them, where
/// they are new: of all parts, or of those up to the one of which the fault tells, with that one.
pub fn write_tree(
    alloc: Global,
    flat: &Flat,
    strings: &mut Strings,
    parts: &[Part],
) -> Result<Tree, TreeFault>
    requires one { IsOneNode parts.now }
    requires few { length parts.now < 2 ^ 32 - 1 }
    ensures gives { (later : List (List ℕ)) → Gains strings.new later
        → Gives (plain_tree later) (IsMeaning (asked flat.now.symbols flat.now.rules flat.now.shapes flat.now.root strings.old) parts.now) TreeFault.Memory result }
    ensures fits { IfOk result (λ tree. IsFitting flat.now.symbols flat.now.rules flat.now.shapes flat.now.root (plain_tree strings.new tree)) }
    ensures few_nodes { IfOk result (λ tree. length tree ≤ most_nodes) }
    ensures table { IsTable strings.old parts.now result strings.new }
    ensures few_texts { length strings.new ≤ length strings.old + length parts.now }
    ensures kept { Gains strings.old strings.new }
{
    let Ok(names) = name_table(alloc, flat, strings.len()) else {
        return Err(TreeFault::Memory);
    };
    let names = names.as_slice();
    let Ok(rows) = element_rows(alloc, flat) else {
        return Err(TreeFault::Memory);
    };
    let rows = rows.as_slice();
    let (name_at, name, coordinates, rest) = first_name(parts);
    let first = first_node(alloc, flat, names, strings, name_at, name, coordinates);
    let (mut tree, root) = match first {
        Ok(first) => first,
        Err(e) => return Err(e),
    };
    let mut outer = List::new(alloc);
    let mut current = Some(root);
    for part in rest {
        let Some(parent) = current else {
            unreachable!();
        };
        match write_part(
            flat, names, rows, strings, &mut tree, &mut outer, parent, part,
        ) {
            Ok(next) => current = next,
            Err(e) => return Err(e),
        }
    }
    Ok(tree)
}
