//! A store as a source that is read by key. Wrong bodies: `must-fail-more/`.

use crate::store::Store;
use command::{Key, Member};
use duty::{CrewId, Ground, GroundId, OutsideId, PairingId, Span};
use lookup::{
    bases_at, crew_ids_at, exceedances_at, ground_at, grounds_held_at, member_at, outside_at,
    outsides_held_at, pairing_at, pairing_ids_at, pairings_held_at, pairings_near_at, request_at,
    requests_at,
};
use part::Source;
use request::RequestNumber;
use roster::{Bases, DutyId, ExceedanceId, LoggedCommand, OutsideEntry, PairingEntry};
use sqlite::Alter;
use state_rows::StoreFault;
use std::alloc::Global;
use values::OrdMap;

impl<S: Alter> Source for Store<S> {
    ghost use Rattle.std.specs.Prelude.{IsTrue};
    ghost use Rattle.sqlite.specs.Held.{state};
    ghost use Rattle.sqlite.specs.State.{HasCleanDisk};
    ghost use Rattle.lookup.proofs.Causes.{fault_then};
    ghost use Rattle.lookup.proofs.Changes.{changes_then, nothing_changes};
    ghost use Rattle.lookup.specs.Reads.{ChangesNothing, IsOpen, IsReadFault, Shows};

    type Fault = StoreFault;

    ghost is_clean = { λ t. HasCleanDisk (state S.Store t) };

    ghost shows = { λ t s. Shows (state S.Store t) s };

    ghost shown_is_sound = { λ t s shown. shown.sound };

    ghost stays = { λ a b. ChangesNothing (state S.Store a) (state S.Store b) };

    ghost at_rest = { λ a. nothing_changes (state S.Store a) };

    ghost and_then = { λ a b c p q.
        changes_then (state S.Store a) (state S.Store b) (state S.Store c) p q };

    ghost fails = { λ a b fault. IsReadFault (state S.Store a) (state S.Store b) fault };

    ghost fails_then = { λ a b c fault p q caused.
        fault_then (state S.Store a) (state S.Store b) (state S.Store c) fault p q caused };

    ghost serves = { λ a b. (HasCleanDisk (state S.Store b) → HasCleanDisk (state S.Store a))
        × (HasCleanDisk (state S.Store b) → IsTrue (state S.Store a).is_open
        → IsTrue (state S.Store b).is_open) };

    ghost serves_at_rest = { λ a. (λ clean. clean, λ clean opened. opened) };

    ghost serves_then = { λ a b c p q.
        (λ clean. p.0 (q.0 clean), λ clean opened. q.1 clean (p.1 (q.0 clean) opened)) };

    ghost is_there = { λ t. IsOpen (state S.Store t) };

    ghost still_there = { λ a b serves there clean. serves.1 clean (there (serves.0 clean)) };

    fn bases(&mut self, alloc: Global) -> Result<Bases, StoreFault> {
        bases_at(alloc, &mut self.conn)
    }

    fn request(&mut self, alloc: Global, key: Key) -> Result<Option<LoggedCommand>, StoreFault> {
        request_at(alloc, &mut self.conn, key)
    }

    fn requests_of(
        &mut self,
        alloc: Global,
        number: RequestNumber,
    ) -> Result<OrdMap<Key, LoggedCommand>, StoreFault> {
        requests_at(alloc, &mut self.conn, number)
    }

    fn member(&mut self, alloc: Global, id: &CrewId) -> Result<Option<Member>, StoreFault> {
        member_at(alloc, &mut self.conn, id)
    }

    fn pairing(
        &mut self,
        alloc: Global,
        id: &PairingId,
    ) -> Result<Option<PairingEntry>, StoreFault> {
        pairing_at(alloc, &mut self.conn, id)
    }

    fn ground(&mut self, alloc: Global, id: &GroundId) -> Result<Option<Ground>, StoreFault> {
        ground_at(alloc, &mut self.conn, id)
    }

    fn outside(
        &mut self,
        alloc: Global,
        id: &OutsideId,
    ) -> Result<Option<OutsideEntry>, StoreFault> {
        outside_at(alloc, &mut self.conn, id)
    }

    fn pairings_of(&mut self, alloc: Global, who: &CrewId) -> Result<Vec<PairingId>, StoreFault> {
        pairings_held_at(alloc, &mut self.conn, who)
    }

    fn pairings_near(
        &mut self,
        alloc: Global,
        who: &CrewId,
        spans: &[Span],
        known: &OrdMap<PairingId, PairingEntry>,
    ) -> Result<Vec<PairingEntry>, StoreFault> {
        pairings_near_at(alloc, &mut self.conn, who, spans, known)
    }

    fn grounds_of(&mut self, alloc: Global, who: &CrewId) -> Result<Vec<GroundId>, StoreFault> {
        grounds_held_at(alloc, &mut self.conn, who)
    }

    fn outsides_of(&mut self, alloc: Global, who: &CrewId) -> Result<Vec<OutsideId>, StoreFault> {
        outsides_held_at(alloc, &mut self.conn, who)
    }

    fn crew_ids(&mut self, alloc: Global) -> Result<Vec<CrewId>, StoreFault> {
        crew_ids_at(alloc, &mut self.conn)
    }

    fn pairing_ids(&mut self, alloc: Global) -> Result<Vec<PairingId>, StoreFault> {
        pairing_ids_at(alloc, &mut self.conn)
    }

    fn exceedances(&mut self, alloc: Global) -> Result<OrdMap<ExceedanceId, DutyId>, StoreFault> {
        exceedances_at(alloc, &mut self.conn)
    }
}
