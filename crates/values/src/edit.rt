//! Changes of a value in its place in a map, without a copy.
ghost use Rattle.std.specs.Prelude.{◌≡◌};

/// A change of a value in its place, which takes no memory.
pub trait Edit<V>: Drop {
    ghost edited: { Self → V → V };

    /// Makes the change.
    fn edit(self, value: &mut V)
        ensures { value.new ≡ edited self value.old };
}
