//! What a part is read from.

ghost use Rattle.std.specs.Prelude.{◌≡◌, IfErr, IsTrue, OnOk};
ghost use Rattle.std.specs.FinMap as fin;
ghost use Rattle.command.specs.Keys.{key_name};
ghost use Rattle.roster.specs.State.{State};
ghost use Rattle.roster.specs.Holding.{IsHeldBy, IsGroundOf, IsOutsideOf, AreJust};
ghost use Rattle.roster.specs.Refusals.{is_member, is_pairing};
ghost use Rattle.roster.specs.Near.{AreHeldNear};
ghost use Rattle.part.specs.Near.{AreSo};
ghost use Rattle.part.specs.Shown.{is_under};
ghost use Rattle.part.specs.Sources.{TellsOfState};
ghost use Rattle.roster.specs.Sound.{Sound};

use command::{Key, Member};
use duty::{CrewId, Ground, GroundId, OutsideId, PairingId, Span};
use request::RequestNumber;
use roster::{Bases, DutyId, ExceedanceId, LoggedCommand, OutsideEntry, PairingEntry};
use std::alloc::Global;
use values::{MemoryFault, OrdMap};

/// What shows a state of the book, read by key.
pub trait Source {
    /// Why a read failed.
    type Fault: From<MemoryFault> + Drop;

    // whether what it said may be believed
    ghost is_clean: { Self → Type 0 };

    // whether it shows this state
    ghost shows: { Self → State → Type 0 };

    ghost shown_is_sound: { (x : Self) (s : State) → shows x s → Sound s };

    // what any call leaves of it: nothing is changed
    ghost stays: { Self → Self → Type 0 };

    ghost at_rest: { (x : Self) → stays x x };

    ghost and_then: { (x y z : Self) → stays x y → stays y z → stays x z };

    // what a fault of a call says: why it came
    ghost fails: { Self → Self → Self.Fault → Type 0 };

    ghost fails_then: { (x y z : Self) (fault : Self.Fault) → stays x y → stays y z
        → fails y z fault → fails x z fault };

    // what a call leaves of it that gives an answer: it can still be asked
    ghost serves: { Self → Self → Type 0 };

    ghost serves_at_rest: { (x : Self) → serves x x };

    ghost serves_then: { (x y z : Self) → serves x y → serves y z → serves x z };

    // whether it can be asked at all
    ghost is_there: { Self → Type 0 };

    ghost still_there: { (x y : Self) → serves x y → is_there x → is_there y };

    /// Reads all bases.
    fn bases(&mut self, alloc: Global) -> Result<Bases, Self::Fault>
        ensures told { TellsOfState is_clean shows (λ s bases. bases ≡ s.bases)
            self.old self.new result }
        ensures left { stays self.old self.new }
        ensures caused { IfErr result (fails self.old self.new) }
        ensures serves { OnOk result (serves self.old self.new) }
        ensures there { OnOk result (is_there self.new) };

    /// Reads what a key holds.
    fn request(&mut self, alloc: Global, key: Key) -> Result<Option<LoggedCommand>, Self::Fault>
        ensures told { TellsOfState is_clean shows
            (λ s found. found ≡ fin.get s.requests (key_name key)) self.old self.new result }
        ensures left { stays self.old self.new }
        ensures caused { IfErr result (fails self.old self.new) }
        ensures serves { OnOk result (serves self.old self.new) }
        ensures there { OnOk result (is_there self.new) };

    /// Reads what is kept under the number of a request.
    fn requests_of(
        &mut self,
        alloc: Global,
        number: RequestNumber,
    ) -> Result<OrdMap<Key, LoggedCommand>, Self::Fault>
        ensures told { TellsOfState is_clean shows
            (λ s found. found ≡ fin.retain_keys s.requests (is_under number))
            self.old self.new result }
        ensures left { stays self.old self.new }
        ensures caused { IfErr result (fails self.old self.new) }
        ensures serves { OnOk result (serves self.old self.new) };

    /// Reads the member of an id.
    fn member(&mut self, alloc: Global, id: &CrewId) -> Result<Option<Member>, Self::Fault>
        ensures told { TellsOfState is_clean shows
            (λ s found. found ≡ fin.get s.crew id.now) self.old self.new result }
        ensures left { stays self.old self.new }
        ensures caused { IfErr result (fails self.old self.new) }
        ensures serves { OnOk result (serves self.old self.new) };

    /// Reads the pairing of an id, with its actuals and holders.
    fn pairing(
        &mut self,
        alloc: Global,
        id: &PairingId,
    ) -> Result<Option<PairingEntry>, Self::Fault>
        ensures told { TellsOfState is_clean shows
            (λ s found. found ≡ fin.get s.pairings id.now) self.old self.new result }
        ensures left { stays self.old self.new }
        ensures caused { IfErr result (fails self.old self.new) }
        ensures serves { OnOk result (serves self.old self.new) };

    /// Reads the ground duty of an id.
    fn ground(&mut self, alloc: Global, id: &GroundId) -> Result<Option<Ground>, Self::Fault>
        ensures told { TellsOfState is_clean shows
            (λ s found. found ≡ fin.get s.grounds id.now) self.old self.new result }
        ensures left { stays self.old self.new }
        ensures caused { IfErr result (fails self.old self.new) }
        ensures serves { OnOk result (serves self.old self.new) };

    /// Reads the outside period of an id, with its member.
    fn outside(
        &mut self,
        alloc: Global,
        id: &OutsideId,
    ) -> Result<Option<OutsideEntry>, Self::Fault>
        ensures told { TellsOfState is_clean shows
            (λ s found. found ≡ fin.get s.outsides id.now) self.old self.new result }
        ensures left { stays self.old self.new }
        ensures caused { IfErr result (fails self.old self.new) }
        ensures serves { OnOk result (serves self.old self.new) };

    /// Reads the ids of the pairings that a member holds, in any order.
    fn pairings_of(&mut self, alloc: Global, who: &CrewId) -> Result<Vec<PairingId>, Self::Fault>
        ensures told { TellsOfState is_clean shows
            (λ s found. AreJust (IsHeldBy s who.now) found.items) self.old self.new result }
        ensures left { stays self.old self.new }
        ensures caused { IfErr result (fails self.old self.new) }
        ensures serves { OnOk result (serves self.old self.new) };

    /// Lists the pairings that a member holds and that are near some spans, in any order and with their seats free: a window may
    /// have a minute of one of the spans and of one of the pairing's periods. What is known of a pairing need not be read.
    fn pairings_near(
        &mut self,
        alloc: Global,
        who: &CrewId,
        spans: &[Span],
        known: &OrdMap<PairingId, PairingEntry>,
    ) -> Result<Vec<PairingEntry>, Self::Fault>
        ensures told { TellsOfState is_clean shows
            (λ s found. AreSo s known.now → AreHeldNear s spans.now who.now found.items)
            self.old self.new result }
        ensures left { stays self.old self.new }
        ensures caused { IfErr result (fails self.old self.new) }
        ensures serves { OnOk result (serves self.old self.new) };

    /// Reads the ids of the member's ground duties, in any order.
    fn grounds_of(&mut self, alloc: Global, who: &CrewId) -> Result<Vec<GroundId>, Self::Fault>
        ensures told { TellsOfState is_clean shows
            (λ s found. AreJust (IsGroundOf s who.now) found.items) self.old self.new result }
        ensures left { stays self.old self.new }
        ensures caused { IfErr result (fails self.old self.new) }
        ensures serves { OnOk result (serves self.old self.new) };

    /// Reads the ids of the member's outside periods, in any order.
    fn outsides_of(&mut self, alloc: Global, who: &CrewId) -> Result<Vec<OutsideId>, Self::Fault>
        ensures told { TellsOfState is_clean shows
            (λ s found. AreJust (IsOutsideOf s who.now) found.items) self.old self.new result }
        ensures left { stays self.old self.new }
        ensures caused { IfErr result (fails self.old self.new) }
        ensures serves { OnOk result (serves self.old self.new) };

    /// Reads the ids of all members, in any order.
    fn crew_ids(&mut self, alloc: Global) -> Result<Vec<CrewId>, Self::Fault>
        ensures told { TellsOfState is_clean shows
            (λ s found. AreJust (λ id. IsTrue (is_member s id)) found.items)
            self.old self.new result }
        ensures left { stays self.old self.new }
        ensures caused { IfErr result (fails self.old self.new) }
        ensures serves { OnOk result (serves self.old self.new) };

    /// Reads the ids of all pairings, in any order.
    fn pairing_ids(&mut self, alloc: Global) -> Result<Vec<PairingId>, Self::Fault>
        ensures told { TellsOfState is_clean shows
            (λ s found. AreJust (λ id. IsTrue (is_pairing s id)) found.items)
            self.old self.new result }
        ensures left { stays self.old self.new }
        ensures caused { IfErr result (fails self.old self.new) }
        ensures serves { OnOk result (serves self.old self.new) };

    /// Reads all exceedances.
    fn exceedances(&mut self, alloc: Global) -> Result<OrdMap<ExceedanceId, DutyId>, Self::Fault>
        ensures told { TellsOfState is_clean shows
            (λ s found. found ≡ s.exceedances) self.old self.new result }
        ensures left { stays self.old self.new }
        ensures caused { IfErr result (fails self.old self.new) }
        ensures serves { OnOk result (serves self.old self.new) };
}
