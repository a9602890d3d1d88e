//! Pairings: what a crew flies together, checked once, where it is made.
//! Worked rows: `tests/answers.py`. Wrong bodies: `must-fail-more/`.
ghost use Rattle.std.specs.Prelude.{◌≡◌, map};
ghost use Rattle.duty.specs.Pairings.{pairing_fault};
ghost use Rattle.duty.specs.Plans.{plan, as_planned};
ghost use Rattle.duty.specs.Words.{checked};

use crate::checks::check_pairing;
use crate::fault::DutyFault;
use crate::fdp::Fdp;
use crate::id::PairingId;
use std::alloc::Global;
use std::marker::Model;
use values::{LawfulEq, MemoryFault, Sequence, TryClone};

/// A plan of 1 to 10 flight duty periods that a crew flies together, each of 1 to 12 segments. The
/// times of each period are in order, each report is at or after the release before it, and each
/// segment but the first departs from where the one before it arrived.
#[derive(PartialEq, Eq, Drop)]
pub struct Pairing {
    id: PairingId,
    periods: Sequence<Fdp>,
}

impl Model for Pairing {
    ghost use Rattle.std.specs.Prelude.{◌≡◌, map, None};
    ghost use Rattle.duty.specs.Plans.{Plan, as_planned};
    ghost use Rattle.duty.specs.Pairings.{pairing_fault};

    ghost Value = { Plan };

    ghost view = { λ p. record { id = p.id; periods = p.periods } };

    ghost invariant = { λ p. (pairing_fault (record { id = p.id; periods = p.periods }) ≡ None)
        × (map as_planned p.periods ≡ p.periods) };

    ghost inverse = { λ p. record { id = p.id; periods = p.periods } };
}

impl Pairing {
    /// Makes a pairing of these periods, each planned at its report. Of several faults the first
    /// comes: a text outside its shape, then a number of periods or segments out of range, then
    /// times out of order, then airports that don't chain, each in the lowest period that has it.
    pub fn new(id: PairingId, periods: Vec<Fdp>) -> Result<Pairing, DutyFault>
        ensures { let p = plan id periods.items in result ≡ checked (pairing_fault p) p }
    {
        let periods = as_planned(periods);
        check_pairing(&id, &periods)?;
        Ok(Pairing {
            id,
            periods: Sequence::new(periods),
        })
    }

    /// Returns the id.
    pub fn id(&self) -> &PairingId
        ensures id { result.now ≡ self.now.id }
        ensures sound { pairing_fault self.now ≡ None }
    {
        &self.id
    }

    /// Returns the periods in turn, each as it is planned.
    pub fn periods(&self) -> &[Fdp]
        ensures periods { result.now ≡ self.now.periods }
        ensures sound { pairing_fault self.now ≡ None }
        ensures planned { map as_planned self.now.periods ≡ self.now.periods }
    {
        self.periods.as_slice()
    }
}

/// Makes each report the planned one.
fn as_planned(periods: Vec<Fdp>) -> Vec<Fdp>
    ensures { result.items ≡ map as_planned periods.items }
{
    let mut periods = periods;
    for period in periods.iter_mut() {
        period.planned_report = period.report;
    }
    periods
}

impl TryClone for Pairing {
    fn try_clone(&self, alloc: Global) -> Result<Pairing, MemoryFault> {
        Ok(Pairing {
            id: self.id.try_clone(alloc)?,
            periods: self.periods.try_clone(alloc)?,
        })
    }
}

impl LawfulEq for Pairing {
    ghost use Rattle.std.specs.Prelude.{refl};
    ghost use Rattle.std.proofs.lemmas.Slice.Eq.{bytes_eq-Decides, slice_eq-Decides};
    ghost use Rattle.values.specs.Same.{both_same, parts_same};
    ghost use Rattle.duty.specs.contracts.fdp.FdpLawfulEq.TheImpl.Laws.{exact-law};

    ghost exact = { λ a b. parts_same
        (λ p. (p.id, p.periods)) (λ p. record { id = p.0; periods = p.1 }) (λ _. refl) a b _
        (both_same _ _ (bytes_eq-Decides a.id b.id)
        (slice_eq-Decides exact-law a.periods b.periods _ refl)) };
}
