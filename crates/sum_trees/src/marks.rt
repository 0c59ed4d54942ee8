//! The marks of a tree's text.
ghost use Rattle.std.specs.Prelude.{◌≡◌, ◌≢◌, ◌<◌, ℕ, ℤ, ◌^◌, List, ◌∷◌, length, IfSome, IfNone};
ghost use Rattle.sum_trees.specs.Marks.{Mark, begins, number, ends, Spells};
ghost use Rattle.sum_trees.specs.Trees.{rule_at, HasDistinctNames};
ghost use Rattle.sum_trees.specs.Fronts.{BeginsFront, NumberFront, EndFront};

use crate::form::SumRule;
use crate::numbers::number_front;
use crate::scan::{is_letter, name_front, skip_white};

/// The number of the rule with this name.
fn rule_of(rules: &[SumRule], name: &[u8]) -> Option<u32>
    requires { length rules.now < 2 ^ 32 }
    ensures some { IfSome result (λ k. (k < length rules.now) × ((rule_at rules.now k).name ≡ name.now)) }
    ensures none { IfNone result ((k : ℕ) → k < length rules.now → (rule_at rules.now k).name ≢ name.now) }
{
    for (k, rule) in rules.iter().enumerate() {
        if rule.name.as_slice() == name {
            return Some(k as u32);
        }
    }
    None
}

/// The node that begins in front, by its rule, and what is behind.
pub fn take_begin<'a>(rules: &[SumRule], bytes: &'a [u8]) -> Option<(u32, &'a [u8])>
    requires small { length rules.now < 2 ^ 32 }
    requires distinct { HasDistinctNames rules.now }
    ensures some { IfSome result (λ x. BeginsFront rules.now bytes.now x.0 x.1.now) }
    ensures shorter { IfSome result (λ x. length x.1.now < length bytes.now) }
    ensures none { IfNone result ((k : ℕ) (marks : List Mark) → k < length rules.now → Spells (begins (rule_at rules.now k).name ∷ marks) bytes.now → ⊥) }
{
    let [b'(', rest @ ..] = skip_white(bytes) else {
        return None;
    };
    let (name, rest) = name_front(skip_white(rest));
    match name {
        [first, ..] if is_letter(*first) => match rule_of(rules, name) {
            Some(k) => Some((k, rest)),
            None => None,
        },
        _ => None,
    }
}

/// The number in front, and what is behind.
pub fn take_number(bytes: &[u8]) -> Option<(i64, &[u8])>
    ensures some { IfSome result (λ x. NumberFront bytes.now x.0 x.1.now) }
    ensures shorter { IfSome result (λ x. length x.1.now < length bytes.now) }
    ensures none { IfNone result ((z : ℤ) (marks : List Mark) → Spells (number z ∷ marks) bytes.now → ⊥) }
{
    number_front(skip_white(bytes))
}

/// What is behind the end of a node.
pub fn take_end(bytes: &[u8]) -> Option<&[u8]>
    ensures some { IfSome result (λ rest. EndFront bytes.now rest.now) }
    ensures shorter { IfSome result (λ rest. length rest.now < length bytes.now) }
    ensures none { IfNone result ((marks : List Mark) → Spells (ends ∷ marks) bytes.now → ⊥) }
{
    match skip_white(bytes) {
        [b')', rest @ ..] => Some(rest),
        _ => None,
    }
}
