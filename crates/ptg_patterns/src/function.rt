//! The functions of patterns.
ghost use Rattle.std.specs.Prelude.{◌≡◌, ◌<◌, ◌-◌, ◌^◌, min, Some, length, slice_get, IfSome};
ghost use Rattle.lido_base.specs.declared.pattern.Pattern.{Pattern as PatternOf};

use lido_base::{Patterns, ValueType};

/// How many arguments the function of pattern k has, the first pattern being 0; no more than a `u32` holds are counted. It takes
/// no memory.
pub fn arity(p: &Patterns, k: u32) -> u32
    requires { k < length p.now.list }
    ensures { IfSome (slice_get p.now.list k) (λ pattern. result ≡ min (length pattern.args) (2 ^ 32 - 1)) }
{
    let count = p.list.as_slice()[k as usize].args.len();
    count.min(u32::MAX as usize) as u32
}

/// The type of argument j of the function of pattern k, the first argument being 0 here; it takes no memory. In the parts of a
/// pattern, as in `$1`, the first argument has the number 1.
pub fn arg_type(p: &Patterns, k: u32, j: u32) -> ValueType
    requires pattern { k < length p.now.list }
    requires argument { IfSome (slice_get p.now.list k) (λ pattern. j < length pattern.args) }
    ensures { (pattern : PatternOf) → slice_get p.now.list k ≡ Some pattern → slice_get pattern.args j ≡ Some result }
{
    p.list.as_slice()[k as usize].args.as_slice()[j as usize]
}
