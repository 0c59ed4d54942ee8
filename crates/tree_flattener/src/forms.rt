//! What stands for a written node in the flat tree, by the number of its rule.
ghost use Rattle.std.specs.Prelude.{◌≡◌, ◌<◌, ◌≤◌, ◌⊎◌, ℕ, true, [], ◌∷◌, Contains, length, Some, None, IfOk, IfSome, slice_get, slice_set};
ghost use Rattle.lido_base.specs.declared.ids.SymId.{SymId as Symbol};
ghost use Rattle.lido_base.specs.declared.ids.RuleId.{RuleId as Id};
ghost use Rattle.tree_flattener.specs.Forms.{IsElementOf, IsEndRule, AreElementRules, IsForm, AreForms};

use flat_grammar::{Flat, FlatRule, Shape, cell_of};
use lido_base::{List, RuleId, SymId};
use std::alloc::{AllocError, Global};

/// The rules of a list's cells.
#[derive(Debug, Drop)]
pub struct Cells {
    /// For each symbol the rule of a cell with an element of it, if there is one.
    pub elements: List<Option<RuleId>>,
    /// The rule of the cell at the end.
    pub end: RuleId,
}

/// What the nodes of a rule are made of in the flat tree.
#[derive(Debug, Drop)]
pub enum Form {
    /// No written node names the rule.
    Unnamed,
    /// A flat node with so many items.
    Plain { width: usize },
    /// A flat node over a chain of cells.
    Chain(Cells),
}

/// The symbol of the element, where the rule is that of a cell with an element.
fn element_of(rule: &FlatRule, cell: SymId) -> Option<SymId>
    ensures found { IfSome result (λ s. IsElementOf cell rule.now s) }
    ensures complete { (s : Symbol) → IsElementOf cell rule.now s → result ≡ Some s }
{
    let right = rule.right.as_slice();
    if rule.left.0 == cell.0 && right.len() == 2 && right[1].0 == cell.0 {
        Some(right[0])
    } else {
        None
    }
}

/// Gives the element of a cell's rule the rule's number.
fn give_rule(elements: &mut Vec<Option<RuleId>>, rule: &FlatRule, cell: SymId, k: usize)
    requires few { k < 65536 }
    requires inside { (s : Symbol) → IsElementOf cell rule.now s → s.0 < length elements.old.items }
    ensures each { length elements.new.items ≡ length elements.old.items }
    ensures found { (s : Symbol) (i : Id) → slice_get elements.new.items s.0 ≡ Some (Some i)
        → (slice_get elements.old.items s.0 ≡ Some (Some i)) ⊎ (IsElementOf cell rule.now s × (i ≡ record { 0 = k })) }
    ensures kept { (s : Symbol) (i : Id) → slice_get elements.old.items s.0 ≡ Some (Some i)
        → (j : Id) × (slice_get elements.new.items s.0 ≡ Some (Some j)) }
    ensures this { (s : Symbol) → IsElementOf cell rule.now s
        → slice_get elements.new.items s.0 ≡ Some (Some (record { 0 = k })) }
{
    match element_of(rule, cell) {
        Some(element) => elements[element.0 as usize] = Some(RuleId(k as u16)),
        None => {}
    }
}

/// For each symbol the rule of this cell with an element of it.
fn element_rules(
    alloc: Global,
    flat: &Flat,
    cell: SymId,
) -> Result<List<Option<RuleId>>, AllocError>
    ensures { IfOk result (λ elements. AreElementRules flat.now.rules cell elements) }
{
    let mut elements = vec![in alloc; None; flat.symbols.len()]?;
    for (k, rule) in flat.rules.as_slice().iter().enumerate() {
        give_rule(&mut elements, rule, cell, k);
    }
    Ok(List::from_vec(elements))
}

/// The rule of this cell with nothing on its right side.
fn end_rule(flat: &Flat, cell: SymId) -> RuleId
    requires { (i : Id) × IsEndRule flat.now.rules cell i }
    ensures { IsEndRule flat.now.rules cell result }
{
    for (k, rule) in flat.rules.as_slice().iter().enumerate() {
        if rule.left.0 == cell.0 && rule.right.len() == 0 {
            return RuleId(k as u16);
        }
    }
    unreachable!()
}

/// The form of this shape's rule.
fn form_of(alloc: Global, flat: &Flat, shape: &Shape) -> Result<Form, AllocError>
    requires { Contains flat.now.shapes shape.now }
    ensures { IfOk result (λ form. IsForm flat.now.symbols flat.now.rules shape.now form) }
{
    if !shape.list {
        return Ok(Form::Plain {
            width: shape.right.len(),
        });
    }
    let cell = cell_of(flat, shape);
    let elements = element_rules(alloc, flat, cell)?;
    Ok(Form::Chain(Cells {
        elements,
        end: end_rule(flat, cell),
    }))
}

/// No form for each of so many rules.
fn no_forms(alloc: Global, count: usize) -> Result<Vec<Form>, AllocError>
    ensures { IfOk result (λ forms. length forms.items ≡ count) }
{
    let mut forms = Vec::new(alloc);
    for _ in 0..count {
        forms.push(Form::Unnamed)?;
    }
    Ok(forms)
}

/// The form of each rule that a written node may name.
pub fn forms(alloc: Global, flat: &Flat) -> Result<Vec<Form>, AllocError>
    ensures { IfOk result (λ forms. AreForms flat.now.symbols flat.now.rules flat.now.shapes forms.items) }
{
    let mut forms = no_forms(alloc, flat.rules.len())?;
    for (k, shape) in flat.shapes.as_slice().iter().enumerate() {
        let form = form_of(alloc, flat, shape)?;
        forms[shape.rule.0 as usize] = form;
    }
    Ok(forms)
}
