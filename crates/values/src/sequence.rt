//! Lists. A `Vec` shows contracts its room too; of these they see the elements alone.
//! Wrong bodies: `must-fail-more/`.
ghost use Rattle.std.specs.Prelude.{◌≡◌, IfOk, slice_set};
ghost use Rattle.std.specs.Cmp.Lexicographic.{pointwise, lists_per, lists_equiv};

use crate::lawful_eq::LawfulEq;
use crate::memory_fault::MemoryFault;
use crate::try_clone::TryClone;
use std::alloc::Global;
use std::marker::Model;

/// A sequence of values, seen by contracts as their list.
#[derive(Drop)]
pub struct Sequence<T> {
    items: Vec<T>,
}

impl<T> Model for Sequence<T> {
    ghost use Rattle.std.specs.Prelude.{List};

    ghost Value = { List T };

    ghost view = { λ it. it.items.items };
}

impl<T> Sequence<T> {
    /// Makes a sequence of a vector's elements, in the same memory.
    pub fn new(items: Vec<T>) -> Sequence<T>
        ensures { result ≡ items.items }
    {
        Sequence { items }
    }

    /// Returns the values themselves.
    pub fn as_slice(&self) -> &[T]
        ensures { result.now ≡ self.now }
    {
        self.items.as_slice()
    }
}

impl<T: Drop> Sequence<T> {
    /// Puts a value in the place of the one at `at`, counted from 0, if there is one.
    pub fn set(&mut self, at: usize, value: T)
        ensures { self.new ≡ slice_set self.old at value }
    {
        if at < self.items.len() {
            self.items[at] = value;
        }
    }
}

impl<T: TryClone> TryClone for Sequence<T> {
    fn try_clone(&self, alloc: Global) -> Result<Sequence<T>, MemoryFault> {
        let items = copies_of(alloc, self.as_slice())?;
        Ok(Sequence { items })
    }
}

/// Copies each value, in turn.
pub fn copies_of<T: TryClone>(alloc: Global, values: &[T]) -> Result<Vec<T>, MemoryFault>
    ensures { IfOk result (λ copies. copies.items ≡ values.now) }
{
    let mut copies = Vec::new(alloc);
    for value in values {
        copies.push(value.try_clone(alloc)?)?;
    }
    Ok(copies)
}

impl<T: PartialEq> PartialEq for Sequence<T> {
    ghost eq = { pointwise T.eq };

    ghost laws = { lists_per T.laws };

    fn eq(&self, other: &Sequence<T>) -> bool {
        self.items == other.items
    }
}

impl<T: Eq> Eq for Sequence<T> {
    ghost laws = { lists_equiv T.Eq.laws };
}

impl<T: LawfulEq> LawfulEq for Sequence<T> {
    ghost use Rattle.std.proofs.lemmas.Slice.Eq.{slice_eq-Decides};
    ghost use Rattle.std.specs.Prelude.{refl};

    ghost exact = { λ a b. slice_eq-Decides T.exact a b _ refl };
}
