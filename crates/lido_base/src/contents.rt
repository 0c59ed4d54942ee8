//! What a table of values is made for.
ghost use Rattle.std.specs.Prelude.{◌≡◌, ℕ, All, List, length};
ghost use Rattle.lido_base.specs.declared.value.Value.{Value};
ghost use Rattle.lido_base.specs.Ranges.{IsInRange};

/// One value for each key, the keys being the numbers from 0, and the region that stores it.
pub trait Contents {
    /// The values by their keys.
    ghost contents: { Self → List Value };

    /// The regions by their keys; 0 for a key that no region stores.
    ghost owners: { Self → List ℕ };

    /// How many keys there are.
    fn keys(&self) -> u32
        ensures count { result ≡ length (contents self.now) }
        ensures owned { result ≡ length (owners self.now) }
        ensures in_range { All IsInRange (contents self.now) };
}
