//! The state of the book as a value. What is asked of it, and what it becomes, stand in `step.rt` and `apply.rt`.
//! Wrong bodies: `must-fail-more/`.
ghost use Rattle.std.specs.Prelude.{◌≡◌, ◌-◌, Ok, IfOk, slice_get};
ghost use Rattle.std.specs.Option.{option_copied};
ghost use Rattle.roster.specs.State.{empty, zone_of};
ghost use Rattle.roster.specs.Pairings.{holder, is_flown, unheld};

use crate::bases::Bases;
use command::{Command, Key, Member, Reply, Seat};
use duty::{Actual, CrewId, Fdp, Ground, GroundId, Outside, OutsideId, Pairing, PairingId};
use limits::Section;
use std::alloc::Global;
use time117::Zone;
use values::{MemoryFault, OrdKey, OrdMap, Sequence, TryClone};

/// A pairing in the book: its plan, the actual of each period in turn where there is one, and who holds its seats.
#[derive(PartialEq, Eq)]
pub struct PairingEntry {
    pub plan: Pairing,
    pub actuals: Sequence<Option<Actual>>,
    pub captain: Option<CrewId>,
    pub first_officer: Option<CrewId>,
}

// (by hand, as that of an instruction is)
impl Drop for PairingEntry {
    fn drop(self) {
        let PairingEntry {
            plan: _,
            actuals: _,
            captain: _,
            first_officer: _,
        } = self;
    }
}

/// A period that a member flew for another certificate holder.
#[derive(PartialEq, Eq, Drop)]
pub struct OutsideEntry {
    pub crew: CrewId,
    pub period: Outside,
}

/// A command that was accepted, with its reply.
#[derive(PartialEq, Eq, Drop)]
pub struct LoggedCommand {
    pub command: Command,
    pub reply: Reply,
}

/// What an exceedance is known by: the command that recorded it, the member and the section. They are ordered by these.
#[derive(PartialEq, Eq, PartialOrd, Ord, Drop)]
pub struct ExceedanceId {
    pub key: Key,
    pub crew: CrewId,
    pub section: Section,
}

/// A period of a pairing; periods count from 1.
#[derive(PartialEq, Eq, Drop)]
pub struct PeriodId {
    pub pairing: PairingId,
    pub number: u8,
}

/// The duty that an exceedance names: a period of a pairing, or one that was flown for another certificate holder.
#[derive(PartialEq, Eq, Drop)]
pub enum DutyId {
    Period(PeriodId),
    Outside(OutsideId),
}

/// The state of the book, as a value: the bases with their zones, and a table for each other thing that it knows. What
/// `step` accepts and `apply` makes of an empty one is a sound roster; its parts are open to whoever reads one from a
/// file.
pub struct Roster {
    pub bases: Bases,
    pub crew: OrdMap<CrewId, Member>,
    pub pairings: OrdMap<PairingId, PairingEntry>,
    pub grounds: OrdMap<GroundId, Ground>,
    pub outsides: OrdMap<OutsideId, OutsideEntry>,
    pub exceedances: OrdMap<ExceedanceId, DutyId>,
    pub requests: OrdMap<Key, LoggedCommand>,
}

// (by hand, as that of an instruction is)
impl Drop for Roster {
    fn drop(self) {
        let Roster {
            bases: _,
            crew: _,
            pairings: _,
            grounds: _,
            outsides: _,
            exceedances: _,
            requests: _,
        } = self;
    }
}

impl Roster {
    /// Makes a roster of nothing but the base `HOME` with this zone.
    pub fn empty(alloc: Global, zone: Zone) -> Result<Roster, MemoryFault>
        ensures { result ≡ Ok (empty zone) }
    {
        Ok(Roster {
            bases: Bases::new(alloc, zone),
            crew: OrdMap::new(alloc),
            pairings: OrdMap::new(alloc),
            grounds: OrdMap::new(alloc),
            outsides: OrdMap::new(alloc),
            exceedances: OrdMap::new(alloc),
            requests: OrdMap::new(alloc),
        })
    }

    /// Returns the zone in which a member's duties are placed: that of the member's base.
    pub fn zone_of(&self, who: &CrewId) -> &Zone
        ensures { result.now ≡ zone_of self.now who.now }
    {
        match self.crew.get(who) {
            Some(member) => self.bases.zone_at(&member.base),
            None => self.bases.home(),
        }
    }
}

impl PairingEntry {
    /// Makes a pairing of which both seats are free and no period is flown.
    pub fn with_free_seats(alloc: Global, plan: Pairing) -> Result<PairingEntry, MemoryFault>
        ensures { IfOk result (λ entry. entry ≡ unheld plan) }
    {
        let mut actuals = Vec::new(alloc);
        for _period in plan.periods() {
            actuals.push(None)?;
        }
        Ok(PairingEntry {
            plan,
            actuals: Sequence::new(actuals),
            captain: None,
            first_officer: None,
        })
    }

    /// Returns who holds the seat.
    pub fn holder(&self, seat: Seat) -> &Option<CrewId>
        ensures { result.now ≡ holder seat self.now }
    {
        match seat {
            Seat::Captain => &self.captain,
            Seat::FirstOfficer => &self.first_officer,
        }
    }

    /// Finds a period as it is planned, by its number, which is at least 1.
    pub(crate) fn planned_period(&self, number: u8) -> Option<&Fdp>
        ensures { option_copied result ≡ slice_get self.now.plan.periods (number - 1) }
    {
        self.plan
            .periods()
            .get(usize::from(number).saturating_sub(1))
    }

    /// Returns whether a period has an actual.
    pub fn is_flown(&self) -> bool
        ensures { result ≡ is_flown self.now }
    {
        self.actuals
            .as_slice()
            .iter()
            .any(|actual| actual.is_some())
    }
}

impl OrdKey for ExceedanceId {
    ghost use Rattle.roster.specs.State.{exceedance_name};
    ghost use Rattle.roster.specs.ExceedanceOrder.{exceedances_order};

    ghost name = { λ id. exceedance_name id.key id.crew id.section };

    ghost same_order = { exceedances_order };
}

impl TryClone for PairingEntry {
    fn try_clone(&self, alloc: Global) -> Result<PairingEntry, MemoryFault> {
        Ok(PairingEntry {
            plan: self.plan.try_clone(alloc)?,
            actuals: self.actuals.try_clone(alloc)?,
            captain: TryClone::try_clone(&self.captain, alloc)?,
            first_officer: TryClone::try_clone(&self.first_officer, alloc)?,
        })
    }
}

impl TryClone for OutsideEntry {
    fn try_clone(&self, alloc: Global) -> Result<OutsideEntry, MemoryFault> {
        Ok(OutsideEntry {
            crew: self.crew.try_clone(alloc)?,
            period: self.period.try_clone(alloc)?,
        })
    }
}

impl TryClone for LoggedCommand {
    fn try_clone(&self, alloc: Global) -> Result<LoggedCommand, MemoryFault> {
        Ok(LoggedCommand {
            reply: self.reply.try_clone(alloc)?,
            command: self.command.try_clone(alloc)?,
        })
    }
}

impl TryClone for ExceedanceId {
    fn try_clone(&self, alloc: Global) -> Result<ExceedanceId, MemoryFault> {
        Ok(ExceedanceId {
            key: self.key,
            crew: self.crew.try_clone(alloc)?,
            section: self.section,
        })
    }
}

impl TryClone for PeriodId {
    fn try_clone(&self, alloc: Global) -> Result<PeriodId, MemoryFault> {
        Ok(PeriodId {
            pairing: self.pairing.try_clone(alloc)?,
            number: self.number,
        })
    }
}

impl TryClone for DutyId {
    fn try_clone(&self, alloc: Global) -> Result<DutyId, MemoryFault> {
        Ok(match self {
            DutyId::Period(period) => DutyId::Period(period.try_clone(alloc)?),
            DutyId::Outside(id) => DutyId::Outside(id.try_clone(alloc)?),
        })
    }
}

impl TryClone for Roster {
    fn try_clone(&self, alloc: Global) -> Result<Roster, MemoryFault> {
        Ok(Roster {
            bases: self.bases.try_clone(alloc)?,
            crew: self.crew.try_clone(alloc)?,
            pairings: self.pairings.try_clone(alloc)?,
            grounds: self.grounds.try_clone(alloc)?,
            outsides: self.outsides.try_clone(alloc)?,
            exceedances: self.exceedances.try_clone(alloc)?,
            requests: self.requests.try_clone(alloc)?,
        })
    }
}
