//! Ids of crew members, pairings, ground duties, bases and outside periods, flights and airports. A tag keeps them apart,
//! so that none is taken for another.
//! Wrong bodies: `must-fail-more/`.
ghost use Rattle.std.specs.Prelude.{◌≡◌, IfOk};
ghost use Rattle.std.specs.Ordering.{nat_cmp, as_partial_cmp};
ghost use Rattle.std.specs.Cmp.{partial_order_from_own_ties};
ghost use Rattle.std.specs.Cmp.Lexicographic.{slice_cmp};
ghost use Rattle.std.specs.Cmp.Rules.{comparing};
ghost use Rattle.std.specs.Str.{bytes_eq};
ghost use Rattle.std.proofs.Common.{rules};
ghost use Rattle.duty.specs.Shape.{home};

use crate::tag;
use crate::tag::Shaped;
use std::alloc::Global;
use std::cmp::Ordering;
use std::marker::{Model, PhantomData};
use values::{LawfulEq, MemoryFault, OrdKey, Text, TryClone};

/// The id of a crew member.
pub type CrewId = Id<tag::Crew>;

/// The id of a pairing.
pub type PairingId = Id<tag::Pairing>;

/// The id of a ground duty.
pub type GroundId = Id<tag::Ground>;

/// The id of a base.
pub type BaseId = Id<tag::Base>;

/// The id of a period that is flown for another certificate holder.
pub type OutsideId = Id<tag::Outside>;

/// A flight, by its number with the airline's letters.
pub type Flight = Id<tag::Flight>;

/// An airport, by its code.
pub type Airport = Id<tag::Airport>;

/// The id of what the tag `T` names, seen by contracts as its bytes. It may be any text: what takes
/// one tests its shape. Ids are ordered by their bytes.
#[derive(Drop)]
pub struct Id<T> {
    text: Text,
    of: PhantomData<T>,
}

impl<T> Model for Id<T> {
    ghost use Rattle.std.specs.Prelude.{List, ℕ};

    ghost Value = { List ℕ };

    ghost view = { λ id. id.text };
}

impl<T> Id<T> {
    /// Makes an id of this text, in the same memory.
    pub fn new(text: Text) -> Id<T>
        ensures { result ≡ text }
    {
        Id {
            text,
            of: PhantomData,
        }
    }

    /// Returns the text itself.
    pub fn as_str(&self) -> &str
        ensures { result.now ≡ self.now }
    {
        self.text.as_str()
    }
}

impl<T: Shaped> Id<T> {
    /// Returns whether the text has the shape of such an id.
    pub fn has_shape(&self) -> bool
        ensures { result ≡ T.has_shape self.now }
    {
        T::has_shape(self.as_str())
    }
}

impl BaseId {
    /// Makes the id of the base that every book has.
    pub fn home(alloc: Global) -> Result<BaseId, MemoryFault>
        ensures { IfOk result (λ id. id ≡ home) }
    {
        Ok(Id::new(Text::new(String::from_str(alloc, "HOME")?)))
    }

    /// Returns whether it is the id of the base that every book has.
    pub fn is_home(&self) -> bool
        ensures { result ≡ bytes_eq self.now home }
    {
        self.as_str() == "HOME"
    }
}

impl<T: Drop> TryClone for Id<T> {
    fn try_clone(&self, alloc: Global) -> Result<Id<T>, MemoryFault> {
        Ok(Id::new(self.text.try_clone(alloc)?))
    }
}

impl<T> PartialEq for Id<T> {
    ghost eq = { bytes_eq };

    ghost laws = { Prim.search (comparing, rules) };

    fn eq(&self, other: &Id<T>) -> bool {
        self.text == other.text
    }
}

impl<T> Eq for Id<T> {
    ghost laws = { Prim.search (comparing, rules) };
}

impl<T> PartialOrd for Id<T> {
    ghost partial_cmp = { as_partial_cmp (slice_cmp nat_cmp) };

    ghost laws = { partial_order_from_own_ties (Prim.search (comparing, rules))
        (Prim.search (comparing, rules)) };

    fn partial_cmp(&self, other: &Id<T>) -> Option<Ordering> {
        Some(self.cmp(other))
    }
}

impl<T> Ord for Id<T> {
    ghost cmp = { slice_cmp nat_cmp };

    ghost total = { Prim.search (comparing, rules) };

    ghost matches_partial_cmp = { Prim.search (comparing, rules) };

    ghost matches_eq = { Prim.search (comparing, rules) };

    fn cmp(&self, other: &Id<T>) -> Ordering {
        self.text.cmp(&other.text)
    }
}

impl<T> LawfulEq for Id<T> {
    ghost use Rattle.std.proofs.lemmas.Slice.Eq.{bytes_eq-Decides};

    ghost exact = { bytes_eq-Decides };
}

impl<T> OrdKey for Id<T> {
    ghost use Rattle.std.specs.Prelude.{refl};

    ghost name = { λ id. id };

    ghost same_order = { λ a b. refl };
}
