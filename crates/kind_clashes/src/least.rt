//! Least places.
ghost use Rattle.std.specs.Prelude.{◌≡◌};
ghost use Rattle.kind_clashes.specs.Least.{earlier_of};

/// The earlier of two places, where there is one.
pub fn earlier(one: Option<u32>, other: Option<u32>) -> Option<u32>
    ensures { result ≡ earlier_of one other }
{
    match (one, other) {
        (None, other) => other,
        (Some(one), None) => Some(one),
        (Some(one), Some(other)) => Some(one.min(other)),
    }
}
