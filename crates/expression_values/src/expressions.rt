//! An expression is evaluated on a stack of values, whose capacity was reserved before.
ghost use Rattle.std.specs.Prelude.{◌≡◌, ◌+◌, ◌≤◌, ◌++◌, length, sum_by, slice_get, vec_len, vec_capacity};
ghost use Rattle.expression_values.specs.Evaluate.{evaluate as value_of, evaluate_list, evaluate_choice, in_order as turn, last_value};
ghost use Rattle.flat_grammar.specs.Expressions.{weight};
ghost use Rattle.flat_grammar.specs.Fitting.{cells};

use flat_grammar::{FlatExpr, Occ};
use lido_base::{CoordPart, Patterns, Strings, Value};
use string_librarian::Room;
use value_ops::{apply, first_bad};

/// Where a computation is evaluated: its terminals and the values that it reads. What isn't there is `Void`.
pub trait Site {
    ghost use Rattle.std.specs.Prelude.{◌≡◌, ℕ};
    ghost use Rattle.lido_base.specs.declared.value.Value.{Value as Given};
    ghost use Rattle.flat_grammar.specs.declared.flat.Occ.{Occ as Occurrence};
    ghost use Rattle.lido_base.specs.declared.kinds.CoordPart.{CoordPart as Part};

    /// The value of the terminal at an occurrence.
    ghost leaf: { Self → ℕ → Given };

    /// The value of an attribute occurrence.
    ghost read: { Self → Occurrence → Given };

    /// The line and the column.
    ghost coord: { Self → Part → ℕ };

    /// The value of the terminal at an occurrence.
    fn leaf_at(&self, place: u16) -> Value
        ensures { result ≡ leaf self.now place };

    /// The value of an attribute occurrence.
    fn read_at(&self, o: Occ) -> Value
        ensures { result ≡ read self.now o };

    /// The line or the column of the computation's node.
    fn coordinate_at(&self, part: CoordPart) -> u32
        ensures { result ≡ coord self.now part };
}

/// The value of the expression in this room. The stack is as before; a failure stands at this written node.
#[cycle(evaluation)]
pub fn evaluate<S: Site>(
    expr: &FlatExpr,
    site: &S,
    node: u32,
    stack: &mut Vec<Value>,
    room: &mut Room,
    strings: &Strings,
    patterns: &Patterns,
) -> Value
    requires cells { cells expr.now ≤ room.old.space }
    requires stack { vec_len stack.old + weight expr.now ≤ vec_capacity stack.old }
    ensures exact { (result, room.new.deposits)
        ≡ value_of strings.now patterns.now.list room.old.number node
        (S.leaf site.now) (S.read site.now) (S.coord site.now) expr.now room.old.deposits }
    ensures stack { stack.new.items ≡ stack.old.items }
    ensures capacity { vec_capacity stack.new ≡ vec_capacity stack.old }
    ensures number { room.new.number ≡ room.old.number }
    ensures space { room.old.space ≤ room.new.space + cells expr.now }
{
    match expr {
        FlatExpr::Value(value) => *value,
        FlatExpr::Terminal(place) => site.leaf_at(*place),
        FlatExpr::Read(o) => site.read_at(*o),
        FlatExpr::Coord(part) => Value::Int(i64::from(site.coordinate_at(*part))),
        FlatExpr::Apply { comp, op, args } => {
            let base = stack.len();
            push_values(args.as_slice(), site, node, stack, room, strings, patterns);
            let value = apply(*op, &stack[base..], node, *comp, room, strings, patterns);
            stack.truncate(base);
            value
        }
        FlatExpr::If(args) => choice(args.as_slice(), site, node, stack, room, strings, patterns),
        FlatExpr::Order(args) => {
            let base = stack.len();
            push_values(args.as_slice(), site, node, stack, room, strings, patterns);
            let value = in_order(&stack[base..]);
            stack.truncate(base);
            value
        }
    }
}

/// Puts the values of the expressions on the stack.
#[cycle(evaluation)]
fn push_values<S: Site>(
    args: &[FlatExpr],
    site: &S,
    node: u32,
    stack: &mut Vec<Value>,
    room: &mut Room,
    strings: &Strings,
    patterns: &Patterns,
)
    requires cells { sum_by cells args.now ≤ room.old.space }
    requires stack { vec_len stack.old + sum_by weight args.now ≤ vec_capacity stack.old }
    ensures values { stack.new.items
        ≡ stack.old.items ++ (evaluate_list strings.now patterns.now.list room.old.number node
        (S.leaf site.now) (S.read site.now) (S.coord site.now) args.now room.old.deposits).0 }
    ensures deposits { room.new.deposits
        ≡ (evaluate_list strings.now patterns.now.list room.old.number node
        (S.leaf site.now) (S.read site.now) (S.coord site.now) args.now room.old.deposits).1 }
    ensures capacity { vec_capacity stack.new ≡ vec_capacity stack.old }
    ensures number { room.new.number ≡ room.old.number }
    ensures space { room.old.space ≤ room.new.space + sum_by cells args.now }
{
    if let Some((first, rest)) = args.split_first() {
        let value = evaluate(first, site, node, stack, room, strings, patterns);
        stack.push_reserved(value);
        push_values(rest, site, node, stack, room, strings, patterns);
    }
}

/// The value of an IF with these arguments.
#[cycle(evaluation)]
fn choice<S: Site>(
    args: &[FlatExpr],
    site: &S,
    node: u32,
    stack: &mut Vec<Value>,
    room: &mut Room,
    strings: &Strings,
    patterns: &Patterns,
) -> Value
    requires cells { sum_by cells args.now ≤ room.old.space }
    requires stack { vec_len stack.old + sum_by weight args.now ≤ vec_capacity stack.old }
    ensures exact { (result, room.new.deposits)
        ≡ evaluate_choice strings.now patterns.now.list room.old.number node
        (S.leaf site.now) (S.read site.now) (S.coord site.now) args.now room.old.deposits }
    ensures stack { stack.new.items ≡ stack.old.items }
    ensures capacity { vec_capacity stack.new ≡ vec_capacity stack.old }
    ensures number { room.new.number ≡ room.old.number }
    ensures space { room.old.space ≤ room.new.space + sum_by cells args.now }
{
    let Some((condition, branches)) = args.split_first() else {
        return Value::Void;
    };
    let chosen = match evaluate(condition, site, node, stack, room, strings, patterns) {
        Value::Bad(origin) => return Value::Bad(origin),
        Value::Bool(true) => 0,
        Value::Bool(false) => 1,
        _ => return Value::Void,
    };
    match branches.get(chosen) {
        Some(branch) => evaluate(branch, site, node, stack, room, strings, patterns),
        None => Value::Void,
    }
}

/// The first Bad value, or else the last one.
fn in_order(values: &[Value]) -> Value
    ensures { result ≡ turn values.now }
{
    match first_bad(values) {
        Some(origin) => Value::Bad(origin),
        None => last(values),
    }
}

/// The last value.
fn last(values: &[Value]) -> Value
    ensures { result ≡ last_value values.now }
{
    match values.last() {
        Some(value) => *value,
        None => Value::Void,
    }
}
