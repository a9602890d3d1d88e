//! Texts of clients, as names, tasks and ids: any bytes of UTF-8, compared and ordered by their bytes.
//! Wrong bodies: `must-fail-more/`.
ghost use Rattle.std.specs.Prelude.{◌≡◌, string_bytes};
ghost use Rattle.std.specs.Ordering.{nat_cmp, as_partial_cmp};
ghost use Rattle.std.specs.Cmp.{partial_order_from_own_ties};
ghost use Rattle.std.specs.Cmp.Lexicographic.{slice_cmp};
ghost use Rattle.std.specs.Cmp.Rules.{comparing};
ghost use Rattle.std.specs.Str.{bytes_eq};
ghost use Rattle.std.proofs.Common.{rules};

use crate::lawful_eq::LawfulEq;
use crate::memory_fault::MemoryFault;
use crate::ord_key::OrdKey;
use crate::try_clone::TryClone;
use std::alloc::Global;
use std::cmp::Ordering;
use std::marker::Model;

/// A text, seen by contracts as its bytes. Texts are ordered by their bytes.
#[derive(Drop)]
pub struct Text {
    string: String,
}

impl Model for Text {
    ghost use Rattle.std.specs.Prelude.{List, ℕ, string_bytes};

    ghost Value = { List ℕ };

    ghost view = { λ text. string_bytes text.string };
}

impl Text {
    /// Makes a text of this string, in the same memory.
    pub fn new(string: String) -> Text
        ensures { result ≡ string_bytes string }
    {
        Text { string }
    }

    /// Returns the text itself.
    pub fn as_str(&self) -> &str
        ensures { result.now ≡ self.now }
    {
        self.string.as_str()
    }
}

impl TryClone for Text {
    fn try_clone(&self, alloc: Global) -> Result<Text, MemoryFault> {
        let string = String::from_str(alloc, self.as_str())?;
        Ok(Text { string })
    }
}

impl PartialEq for Text {
    ghost eq = { bytes_eq };

    ghost laws = { Prim.search (comparing, rules) };

    fn eq(&self, other: &Text) -> bool {
        self.as_str() == other.as_str()
    }
}

impl Eq for Text {
    ghost laws = { Prim.search (comparing, rules) };
}

impl PartialOrd for Text {
    ghost partial_cmp = { as_partial_cmp (slice_cmp nat_cmp) };

    ghost laws = { partial_order_from_own_ties (Prim.search (comparing, rules))
        (Prim.search (comparing, rules)) };

    fn partial_cmp(&self, other: &Text) -> Option<Ordering> {
        Some(self.cmp(other))
    }
}

impl Ord for Text {
    ghost cmp = { slice_cmp nat_cmp };

    ghost total = { Prim.search (comparing, rules) };

    ghost matches_partial_cmp = { Prim.search (comparing, rules) };

    ghost matches_eq = { Prim.search (comparing, rules) };

    fn cmp(&self, other: &Text) -> Ordering {
        self.as_str().cmp(other.as_str())
    }
}

impl LawfulEq for Text {
    ghost use Rattle.std.proofs.lemmas.Slice.Eq.{bytes_eq-Decides};

    ghost exact = { bytes_eq-Decides };
}

impl OrdKey for Text {
    ghost use Rattle.std.specs.Prelude.{refl};

    ghost name = { λ text. text };

    ghost same_order = { λ _ _. refl };
}
