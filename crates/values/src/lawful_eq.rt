//! Equality that contracts can rely on: where `==` says yes, the two values are one to the prover.

/// A value of which `==` says whether two are the same value to contracts.
pub trait LawfulEq: PartialEq {
    ghost use Rattle.std.specs.Prelude.{◌≡◌, ◌↔◌, IsTrue};

    ghost exact: { (a b : Self) → IsTrue (Self.eq a b) ↔ (a ≡ b) };
}

impl<T: LawfulEq> LawfulEq for Option<T> {
    ghost use Rattle.values.specs.Same.{option_same};

    ghost exact = { option_same T.eq T.exact };
}
