//! The computations of a rule.
ghost use Rattle.std.specs.Prelude.{◌≡◌, ◌<◌, ◌≤◌, ◌+◌, ◌^◌, ◌↔◌, IsTrue, All, IfOk};
ghost use Rattle.large_grammars.specs.Sizes.{IsWithin, IsInside, IsComputation, AreBefore, kind_of as kind_at, goal_kind as kind_there};

use crate::{Flow, Size};
use flat_grammar::{FlatComp, FlatExpr, Occ};
use lido_base::{AttrId, Kind, List};
use std::alloc::{AllocError, Global};

/// The kind of an attribute: the kinds alternate.
pub fn kind_of(a: usize) -> Kind
    ensures { result ≡ kind_at a }
{
    if a % 2 == 0 {
        Kind::Inherited
    } else {
        Kind::Synthesized
    }
}

/// The kind of attribute that a rule computes at an occurrence.
fn goal_kind(k: usize) -> Kind
    ensures { result ≡ kind_there k }
{
    if k == 0 {
        Kind::Synthesized
    } else {
        Kind::Inherited
    }
}

/// An attribute occurrence.
fn occurrence(k: usize, a: usize) -> Occ
    requires occurrence { k < 2 ^ 16 }
    requires attribute { a < 2 ^ 16 }
    ensures { result ≡ record { occ = k; attr = record { 0 = a } } }
{
    Occ {
        occ: k as u16,
        attr: AttrId(a as u16),
    }
}

/// What a computation reads where all that children inherit waits for the left side's last attribute.
fn late_source(size: Size, k: usize, a: usize) -> Occ
    requires size { IsWithin size }
    requires attribute { a < size.attributes }
    ensures { IsInside size result }
{
    if k > 0 {
        return occurrence(0, size.attributes - 1);
    }
    occurrence(0, a.saturating_sub(1))
}

/// What a computation reads where values are handed to the next attribute of their kind.
fn next_source(size: Size, is_first: bool, k: usize, a: usize) -> Occ
    requires size { IsWithin size }
    requires attribute { a < size.attributes }
    ensures { IsInside size result }
{
    let pairs = size.attributes / 2;
    if pairs < 2 || (is_first && k == 0 && a == 1) {
        return occurrence(0, 0);
    }
    if k > 0 {
        return occurrence(0, 2 * ((a / 2 + pairs - 1) % pairs));
    }
    if a / 2 + 1 >= pairs {
        return occurrence(1, a);
    }
    occurrence(1, 2 * ((a / 2 + pairs - 2) % (pairs - 1)) + 1)
}

/// What a computation reads where the first two children want each other's last attribute for their first.
fn crossed_source(size: Size, k: usize, a: usize) -> Occ
    requires size { IsWithin size }
    requires occurrence { k ≤ size.children }
    requires attribute { a < size.attributes }
    ensures { IsInside size result }
{
    let last = size.attributes - 1;
    if k == 0 && a == last {
        return occurrence(0, last.saturating_sub(1));
    }
    if k == 0 {
        return occurrence(1, a);
    }
    if k < 3 && a == 0 && size.children > 1 {
        return occurrence(3 - k, last);
    }
    occurrence(0, a)
}

/// What a computation reads.
fn source(size: Size, flow: Flow, is_last: bool, k: usize, a: usize) -> Occ
    requires size { IsWithin size }
    requires occurrence { k ≤ size.children }
    requires attribute { a < size.attributes }
    ensures { IsInside size result }
{
    if flow == Flow::Late {
        return late_source(size, k, a);
    }
    if flow == Flow::Crossed {
        return crossed_source(size, k, a);
    }
    if flow == Flow::Rotated {
        return next_source(size, is_last, k, a);
    }
    if k > 0 {
        if flow == Flow::Straight || a == 0 {
            return occurrence(0, a);
        }
        return occurrence(k, a - 1);
    }
    if is_last && a > 0 {
        return occurrence(0, a - 1);
    }
    occurrence(1, a)
}

/// All occurrences of an attribute.
fn row(alloc: Global, size: Size, a: usize) -> Result<List<Occ>, AllocError>
    requires size { IsWithin size }
    requires attribute { a < size.attributes }
    ensures { IfOk result (λ list. All (IsInside size) list) }
{
    let mut list = List::new(alloc);
    for k in 0..1 + size.children {
        list.push(occurrence(k, a))?;
    }
    Ok(list)
}

/// What a computation needs beside what it reads.
fn others(alloc: Global, size: Size, flow: Flow, a: usize) -> Result<List<Occ>, AllocError>
    requires size { IsWithin size }
    requires attribute { a < size.attributes }
    ensures { IfOk result (λ list. All (IsInside size) list) }
{
    if flow != Flow::Dense || a == 0 {
        return Ok(List::new(alloc));
    }
    row(alloc, size, a - 1)
}

/// A computation.
fn computation(
    alloc: Global,
    size: Size,
    flow: Flow,
    is_last: bool,
    k: usize,
    a: usize,
) -> Result<FlatComp, AllocError>
    requires size { IsWithin size }
    requires occurrence { k ≤ size.children }
    requires attribute { a < size.attributes }
    requires goal { kind_at a ≡ kind_there k }
    ensures goal { IfOk result (λ comp. comp.goal ≡ record { occ = k; attr = record { 0 = a } }) }
    ensures inside { IfOk result (λ comp. IsComputation size comp) }
{
    let after = others(alloc, size, flow, a)?;
    Ok(FlatComp {
        goal: occurrence(k, a),
        origin: 0,
        value: FlatExpr::Read(source(size, flow, is_last, k, a)),
        after,
    })
}

/// Whether a rule computes an attribute at an occurrence.
fn is_goal(k: usize, a: usize) -> bool
    ensures { IsTrue result ↔ (kind_at a ≡ kind_there k) }
{
    kind_of(a) == goal_kind(k)
}

/// Adds the computation of an attribute at an occurrence, if the rule computes it.
fn push_goal(
    alloc: Global,
    size: Size,
    flow: Flow,
    is_last: bool,
    k: usize,
    a: usize,
    comps: &mut Vec<FlatComp>,
) -> Result<(), AllocError>
    requires size { IsWithin size }
    requires occurrence { k ≤ size.children }
    requires attribute { a < size.attributes }
    requires before { AreBefore size k a comps.old.items }
    ensures { IfOk result (λ _. AreBefore size k (a + 1) comps.new.items) }
{
    if !is_goal(k, a) {
        return Ok(());
    }
    let comp = computation(alloc, size, flow, is_last, k, a)?;
    comps.push(comp)?;
    Ok(())
}

/// Adds the computations of an occurrence.
fn push_goals(
    alloc: Global,
    size: Size,
    flow: Flow,
    is_last: bool,
    k: usize,
    comps: &mut Vec<FlatComp>,
) -> Result<(), AllocError>
    requires size { IsWithin size }
    requires occurrence { k ≤ size.children }
    requires before { AreBefore size k 0 comps.old.items }
    ensures { IfOk result (λ _. AreBefore size (k + 1) 0 comps.new.items) }
{
    for a in 0..size.attributes {
        push_goal(alloc, size, flow, is_last, k, a, comps)?;
    }
    Ok(())
}

/// The computations of a rule, in the order of their goals.
pub fn computations(
    alloc: Global,
    size: Size,
    flow: Flow,
    is_last: bool,
) -> Result<List<FlatComp>, AllocError>
    requires { IsWithin size }
    ensures { IfOk result (λ comps. AreBefore size (1 + size.children) 0 comps) }
{
    let mut comps = Vec::new(alloc);
    for k in 0..1 + size.children {
        push_goals(alloc, size, flow, is_last, k, &mut comps)?;
    }
    Ok(List::from_vec(comps))
}
