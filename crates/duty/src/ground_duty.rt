//! Ground duties: duty (14 CFR 117.3) outside of any pairing, as training.
//! Worked rows: `tests/answers.py`. Wrong bodies: `must-fail-more/`.
ghost use Rattle.std.specs.Prelude.{◌≡◌, ◌<◌};
ghost use Rattle.duty.specs.Pairings.{ground_fault};
ghost use Rattle.duty.specs.Plans.{GroundPlan};
ghost use Rattle.duty.specs.Words.{checked};

use crate::fault::{DutyFault, Field};
use crate::id::{CrewId, GroundId};
use crate::shape::is_plain_text;
use std::alloc::Global;
use std::marker::Model;
use time117::Minute;
use values::{LawfulEq, MemoryFault, Text, TryClone};

/// A ground duty of a crew member, from its begin up to its end.
#[derive(PartialEq, Eq, Drop)]
pub struct Ground {
    id: GroundId,
    crew: CrewId,
    begin: Minute,
    end: Minute,
    task: Text,
}

impl Model for Ground {
    ghost use Rattle.std.specs.Prelude.{◌≡◌, None};
    ghost use Rattle.duty.specs.Plans.{GroundPlan};
    ghost use Rattle.duty.specs.Pairings.{ground_fault};

    ghost Value = { GroundPlan };

    ghost view = { λ g.
        record { id = g.id; crew = g.crew; begin = g.begin; end = g.end; task = g.task } };

    ghost invariant = { λ g.
        ground_fault
        (record { id = g.id; crew = g.crew; begin = g.begin; end = g.end; task = g.task }) ≡ None };

    ghost inverse = { λ g.
        record { id = g.id; crew = g.crew; begin = g.begin; end = g.end; task = g.task } };
}

impl Ground {
    /// Makes a ground duty of these. Of several faults the first comes: a text outside its shape,
    /// in the order of the arguments, then an end that is not after the begin.
    #[tactic(auto, unfolding(crate::specs::Pairings::ground_fault))]
    pub fn new(
        id: GroundId,
        crew: CrewId,
        begin: Minute,
        end: Minute,
        task: Text,
    ) -> Result<Ground, DutyFault>
        ensures { let g : GroundPlan = record
            { id = id; crew = crew; begin = begin; end = end; task = task } in
            result ≡ checked (ground_fault g) g }
    {
        if !id.has_shape() {
            return Err(DutyFault::BadField(Field::Ground));
        }
        if !crew.has_shape() {
            return Err(DutyFault::BadField(Field::Crew));
        }
        if !is_plain_text(&task) {
            return Err(DutyFault::BadField(Field::Task));
        }
        if begin >= end {
            return Err(DutyFault::BadTimes(0));
        }
        Ok(Ground {
            id,
            crew,
            begin,
            end,
            task,
        })
    }

    /// Returns the id.
    pub fn id(&self) -> &GroundId
        ensures id { result.now ≡ self.now.id }
        ensures sound { ground_fault self.now ≡ None }
    {
        &self.id
    }

    /// Returns whose duty it is.
    pub fn crew(&self) -> &CrewId
        ensures { result.now ≡ self.now.crew }
    {
        &self.crew
    }

    /// Returns the first minute of the duty.
    pub fn begin(&self) -> Minute
        ensures { result ≡ self.now.begin }
    {
        self.begin
    }

    /// Returns the first minute after the duty.
    pub fn end(&self) -> Minute
        ensures { result ≡ self.now.end }
    {
        self.end
    }

    /// Returns what the duty is.
    pub fn task(&self) -> &Text
        ensures { result.now ≡ self.now.task }
    {
        &self.task
    }
}

impl TryClone for Ground {
    fn try_clone(&self, alloc: Global) -> Result<Ground, MemoryFault> {
        Ok(Ground {
            id: self.id.try_clone(alloc)?,
            crew: self.crew.try_clone(alloc)?,
            begin: self.begin,
            end: self.end,
            task: self.task.try_clone(alloc)?,
        })
    }
}

impl LawfulEq for Ground {
    ghost use Rattle.std.specs.Prelude.{refl};
    ghost use Rattle.std.proofs.lemmas.Bool.Decides.{Decides-eqb};
    ghost use Rattle.std.proofs.lemmas.Slice.Eq.{bytes_eq-Decides};
    ghost use Rattle.values.specs.Same.{both_same, parts_same};

    ghost exact = { λ a b. parts_same
        (λ g. (g.id, (g.crew, (g.begin, (g.end, g.task)))))
        (λ p. record { id = p.0; crew = p.1.0; begin = p.1.1.0; end = p.1.1.1.0; task = p.1.1.1.1 })
        (λ _. refl) a b _
        (both_same _ _ (bytes_eq-Decides a.id b.id)
        (both_same _ _ (bytes_eq-Decides a.crew b.crew)
        (both_same _ _ (Decides-eqb a.begin b.begin)
        (both_same _ _ (Decides-eqb a.end b.end) (bytes_eq-Decides a.task b.task))))) };
}
