//! The least origin of a fault among the values that regions have in the end.
ghost use Rattle.std.specs.Prelude.{◌≡◌, ◌<◌, ◌+◌, true, false, length};
ghost use Rattle.lido_base.specs.Origins.{IsAtMost, rank};
ghost use Rattle.core_machine.specs.Faults.{fault_of, IsFaultBefore, IsLeast, IsLesser};
ghost use Rattle.region_engine.specs.Finals.{final_values};
ghost use Rattle.region_engine.specs.Endings.{AreDone};

use crate::holders::value_at;
use crate::region::Region;
use crate::sizes::attributes_at;
use core_machine::Job;
use flat_grammar::FlatAttr;
use lido_base::{BadKind, Origin, Value};

/// The place of a kind among those of one computation.
fn rank_of(kind: BadKind) -> u8
    ensures { result ≡ rank kind }
{
    match kind {
        BadKind::Overflow => 0,
        BadKind::DivideByZero => 1,
        BadKind::TextTooLong => 2,
    }
}

/// Whether an origin is at most another one.
fn is_at_most(a: Origin, b: Origin) -> bool
    ensures yes { result ≡ true → IsAtMost a b }
    ensures no { result ≡ false → IsAtMost b a }
{
    if a.node != b.node {
        a.node < b.node
    } else if a.comp != b.comp {
        a.comp < b.comp
    } else {
        rank_of(a.kind) <= rank_of(b.kind)
    }
}

/// The lesser of two origins, of which there may be none.
fn lesser(a: Option<Origin>, b: Option<Origin>) -> Option<Origin>
    ensures { IsLesser a b result }
{
    match (a, b) {
        (None, other) => other,
        (Some(a), None) => Some(a),
        (Some(a), Some(b)) => Some(if is_at_most(a, b) { a } else { b }),
    }
}

/// The origin of a Bad value of an attribute that is marked as written.
fn fault_at(attr: FlatAttr, value: Value) -> Option<Origin>
    ensures { result ≡ fault_of attr value }
{
    match value {
        Value::Bad(origin) if attr.written => Some(origin),
        _ => None,
    }
}

/// The least origin up to a node's last attribute, from that of the nodes before.
fn with_node(job: &Job, regions: &[Region], node: u32, before: Option<Origin>) -> Option<Origin>
    requires inside { node < length job.now.flat }
    requires regions { AreDone job.now regions.now }
    requires before { IsLeast (IsFaultBefore job.now (final_values job.now) node 0) before }
    ensures { IsLeast (IsFaultBefore job.now (final_values job.now) (node + 1) 0) result }
{
    job.facts();
    let mut bad = before;
    for (k, attr) in attributes_at(job, node).iter().enumerate() {
        bad = lesser(bad, fault_at(*attr, value_at(job, regions, node, k as u16)));
    }
    bad
}

/// The least origin of a Bad value among all attributes that are marked as written.
pub fn least_fault(job: &Job, regions: &[Region]) -> Option<Origin>
    requires { AreDone job.now regions.now }
    ensures { IsLeast (IsFaultBefore job.now (final_values job.now) (length job.now.flat) 0) result }
{
    let mut bad = None;
    for node in 0..job.trees().flat.len() {
        bad = with_node(job, regions, node, bad);
    }
    bad
}
