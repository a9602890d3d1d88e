//! Keys that are ordered as lists of numbers, by which contracts see an ordered map as a map.

/// A key with a name, a list of numbers, that is ordered as its name.
pub trait OrdKey: Ord {
    ghost use Rattle.std.specs.Prelude.{◌≡◌, ℕ, List};
    ghost use Rattle.values.specs.Name.{name_cmp};

    ghost name: { Self → List ℕ };

    ghost same_order: { (a b : Self) → Self.cmp a b ≡ name_cmp (name a) (name b) };
}
