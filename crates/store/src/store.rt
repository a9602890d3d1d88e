//! The tables of a book as a state: made, loaded, read by key, and changed by commits. What these come to are the
//! records of `writing/specs/Commits.antt` and of `specs/Loaded.antt`.
//! Through the program: `tests/tables.py`. Wrong bodies: `must-fail/` and `must-fail-more/`.
ghost use Rattle.std.specs.Prelude.{ℕ, List, Result, ◌≡◌, ◌↔◌, IfOk, IfErr, IsErrAnd, OnOk, Err};
ghost use Rattle.sqlite.specs.State.{HasCleanDisk};
ghost use Rattle.sqlite.specs.Held.{state};
ghost use Rattle.roster.specs.Sound.{Sound};
ghost use Rattle.roster.specs.State.{State, empty};
ghost use Rattle.roster.specs.Steps.{step_of};
ghost use Rattle.part.specs.Part.{Part};
ghost use Rattle.part.specs.Shown.{Absence, IsShown, shown_part};
ghost use Rattle.lookup.specs.Count.{IsCount};
ghost use Rattle.lookup.specs.Reads.{ChangesNothing, IsOpen, IsReadFault, Shows};
ghost use Rattle.writing.specs.Commits.{IsCommitted, AreTablesMade, IsNotMade};
ghost use Rattle.writing.specs.Making.{IsFree};
ghost use Rattle.state_rows.specs.Outcomes.{CrashLeavesSome, CrashAddsNothing, IsOutside, IsOverBook};
ghost use Rattle.state_rows.specs.Requests.{Requests};
ghost use Rattle.store.specs.Loaded.{IsLoaded, IsNotLoaded, ShowsWhatIsLeft};
ghost use Rattle.store.specs.Reading.{IsBookRead};

use crate::show::Show;
use command::{Command, Key};
use entries::LoadFault;
use loading::read_all;
use lookup::{RequestCount, count_at};
use part::{gather, gather_shown, judge};
use roster::{Change, Roster, Verdict};
use sqlite::{Alter, Connection};
use state_rows::{Edition, StoreFault};
use std::alloc::Global;
use std::marker::Model;
use time117::Zone;
use writing::{CreateFault, commit_change, make_book, migrate_book, take_back};

/// The tables of a book. Contracts see what its connection holds.
pub struct Store<S: Alter> {
    pub(crate) conn: Connection<S>,
}

impl<S: Alter + Drop> Drop for Store<S> {
    fn drop(self) {
        let Store { conn: _ } = self;
    }
}

impl<S: Alter> Model for Store<S> {
    ghost use Rattle.sqlite.specs.Held.{Held, held_code, state};
    ghost use Rattle.state_rows.specs.Outcomes.{IsOutside, IsOverBook};

    ghost Value = { Held S };

    ghost coded = { held_code S.code };

    ghost view = { λ s. s.conn };

    ghost invariant = { λ s. IsOutside (state S.Store s.conn) × IsOverBook (state S.Store s.conn) };
}

impl<S: Alter> Store<S> {
    /// Makes the tables of a book, in one transaction. Refused is a database that has a table with the name of one of them,
    /// or a foreign key that refers to one (43), a store's fault (90), and out of memory (91); then the connection is
    /// handed back.
    pub fn create(
        alloc: Global,
        mut conn: Connection<S>,
        zone: &Zone,
    ) -> Result<Store<S>, (CreateFault, Connection<S>)>
        requires { IsOutside (state S.Store conn) }
        ensures made { IfOk result
            (λ it. AreTablesMade (state S.Store conn) (state S.Store it) (empty zone.now)) }
        ensures not_made { IfErr result (λ e. IsNotMade S.Store conn e.1 (empty zone.now) e.0) }
        ensures refused { (¬ IsFree (state S.Store conn).now.schema)
            → IsErrAnd result (λ e. e.0 ≡ CreateFault.NotEmpty) }
    {
        match make_book(alloc, &mut conn, zone) {
            Ok(()) => Ok(Store { conn }),
            Err(fault) => Err((fault, conn)),
        }
    }

    /// Reads the book that a crash or anybody left. One of version 1 becomes one of version 2, in one transaction; of one of
    /// version 2 nothing is changed. Refused is a database without a table `book` (40), tables of another version (42), tables
    /// that aren't the rows of a sound roster, with the first that is at fault (41), a store's fault (90), and out of memory
    /// (91); then the connection is handed back, with nothing changed. Only after 90 a book of version 1 may be of version 2.
    pub fn load(
        alloc: Global,
        mut conn: Connection<S>,
    ) -> Result<Store<S>, (LoadFault, Connection<S>)>
        requires { IsOutside (state S.Store conn) }
        ensures loaded { IfOk result
            (λ it. (s : State) × IsLoaded (state S.Store conn) (state S.Store it) s) }
        ensures not_loaded { IfErr result
            (λ e. IsNotLoaded (state S.Store conn) (state S.Store e.1) e.0) }
    {
        match read_migrated(alloc, &mut conn) {
            Ok(()) => Ok(Store { conn }),
            Err(fault) => Err((fault, conn)),
        }
    }

    /// Reads by key what a command needs to be answered under its key, in no transaction, and changes nothing. A store's fault is
    /// 90, out of memory 91.
    pub fn part(&mut self, alloc: Global, key: Key, command: &Command) -> Result<Roster, StoreFault>
        // The part, by the state that the tables show: sound, and answering as that state does.
        ensures part { (s : State) → Shows (state S.Store self.old) s
            → HasCleanDisk (state S.Store self.new)
            → IfOk result (λ r. r ≡ Part s key command.now) }
        ensures sound { (s : State) → Shows (state S.Store self.old) s
            → HasCleanDisk (state S.Store self.new) → IfOk result Sound }
        ensures answers { (s : State) → Shows (state S.Store self.old) s
            → HasCleanDisk (state S.Store self.new)
            → IfOk result (λ r. step_of r key command.now ≡ step_of s key command.now) }

        // Nothing is changed, a fault of the store has a cause, and a crash leaves something.
        ensures unchanged { ChangesNothing (state S.Store self.old) (state S.Store self.new) }
        ensures caused { IfErr result
            (IsReadFault (state S.Store self.old) (state S.Store self.new)) }
        ensures opened { OnOk result (IsOpen (state S.Store self.new)) }
        ensures some_left { CrashLeavesSome (state S.Store self.new) }
    {
        let part = gather(alloc, self, key, command);
        // A connection that is live still leaves something.
        let _live = self.conn.schema();
        part
    }

    /// Judges a command under its key by the state that the tables show. It reads by key, in no transaction, and changes nothing;
    /// it reads first what the key holds, then what the command names, and only if these don't settle the verdict the
    /// histories by which it is judged. A store's fault is 90, out of memory 91.
    pub fn judge(
        &mut self,
        alloc: Global,
        key: Key,
        command: &Command,
    ) -> Result<Verdict, StoreFault>
        ensures verdict { (s : State) → Shows (state S.Store self.old) s
            → HasCleanDisk (state S.Store self.new)
            → IfOk result (λ verdict. verdict ≡ step_of s key command.now) }

        // As of `part`.
        ensures unchanged { ChangesNothing (state S.Store self.old) (state S.Store self.new) }
        ensures caused { IfErr result
            (IsReadFault (state S.Store self.old) (state S.Store self.new)) }
        ensures opened { OnOk result (IsOpen (state S.Store self.new)) }
        ensures some_left { CrashLeavesSome (state S.Store self.new) }
    {
        let verdict = judge(alloc, self, key, command);
        // As in `part`.
        let _live = self.conn.schema();
        verdict
    }

    /// Reads by key a roster with what the text of a member, of a member's limits, of a pairing, of the exceedances, of a list, of
    /// a board or of a request needs, in no transaction, and changes nothing. A store's fault is 90, out of memory 91.
    pub fn read_shown(&mut self, alloc: Global, what: &Show) -> Result<Roster, StoreFault>
        ensures part { (s : State) → Shows (state S.Store self.old) s
            → HasCleanDisk (state S.Store self.new) → IfOk result (λ r. r ≡ shown_part s what.now) }
        ensures text { (s : State) → Shows (state S.Store self.old) s
            → HasCleanDisk (state S.Store self.new) → IfOk result (λ roster.
            (text : Result (List ℕ) Absence) → IsShown roster what.now text
            ↔ IsShown s what.now text) }
        ensures unchanged { ChangesNothing (state S.Store self.old) (state S.Store self.new) }
        ensures caused { IfErr result
            (IsReadFault (state S.Store self.old) (state S.Store self.new)) }
        ensures opened { OnOk result (IsOpen (state S.Store self.new)) }
        ensures some_left { CrashLeavesSome (state S.Store self.new) }
    {
        let shown = gather_shown(alloc, self, what);
        // As in `part`.
        let _live = self.conn.schema();
        shown
    }

    /// Reads how many requests are kept, and which number is free for the next, in no transaction, and changes nothing. No
    /// command is read. A store's fault is 90, out of memory 91.
    pub fn count(&mut self, alloc: Global) -> Result<RequestCount, StoreFault>
        ensures count { (s : State) → Shows (state S.Store self.old) s
            → HasCleanDisk (state S.Store self.new) → IfOk result (IsCount s) }

        // As of `part`.
        ensures unchanged { ChangesNothing (state S.Store self.old) (state S.Store self.new) }
        ensures caused { IfErr result
            (IsReadFault (state S.Store self.old) (state S.Store self.new)) }
        ensures opened { OnOk result (IsOpen (state S.Store self.new)) }
        ensures some_left { CrashLeavesSome (state S.Store self.new) }
    {
        let count = count_at(alloc, &mut self.conn);
        // As in `part`.
        let _live = self.conn.schema();
        count
    }

    /// Writes a change that the step gave of the state that the tables hold, in one transaction. After out of memory (91)
    /// nothing is changed, and the connection is still open, unless the disk failed or refused a call meanwhile; after a
    /// store's fault (90) all of the change is kept, or nothing of it.
    pub fn commit(&mut self, alloc: Global, change: &Change) -> Result<(), StoreFault>
        ensures { IsCommitted (state S.Store self.old) (state S.Store self.new) change.now result }
    {
        commit_change(alloc, &mut self.conn, change)
    }

    /// Hands back the connection, with nothing changed.
    pub fn into_connection(self) -> Connection<S>
        ensures same { result ≡ self }
        ensures outside { IsOutside (state S.Store result) }
    {
        let Store { conn } = self;
        conn
    }
}

/// Reads a book, and brings one of version 1 to version 2.
fn read_migrated<S: Alter>(alloc: Global, conn: &mut Connection<S>) -> Result<(), LoadFault>
    requires { IsOutside (state S.Store conn.old) }
    ensures loaded { IfOk result
        (λ _. (s : State) × IsLoaded (state S.Store conn.old) (state S.Store conn.new) s) }
    ensures not_loaded { IfErr result
        (IsNotLoaded (state S.Store conn.old) (state S.Store conn.new)) }
    ensures over { IfOk result (λ _. IsOverBook (state S.Store conn.new)) }
    ensures outside { IsOutside (state S.Store conn.new) }
{
    let (roster, edition) = read(alloc, conn)?;
    match edition {
        Edition::First => match migrate_book(alloc, conn, &roster) {
            Ok(()) => Ok(()),
            Err(fault) => Err(LoadFault::Fault(fault)),
        },
        Edition::Second => Ok(()),
    }
}

/// Reads a book, and leaves no transaction open: where it can't be taken back, that is the fault (90).
fn read<S: Alter>(alloc: Global, conn: &mut Connection<S>) -> Result<(Roster, Edition), LoadFault>
    // No transaction is begun.
    requires { IsOutside (state S.Store conn.old) }

    // What is read, or what is true of the database; and that a crash could have left the database.
    ensures read { (kept : Requests) × IsBookRead kept (state S.Store conn.old)
        (state S.Store conn.new) result }
    ensures left { IfOk result (λ _. HasCleanDisk (state S.Store conn.new)
        → ShowsWhatIsLeft (state S.Store conn.old)) }
    ensures over { IfOk result
        (λ r. r.1 ≡ Edition.Second → IsOverBook (state S.Store conn.new)) }
    ensures some_left { CrashLeavesSome (state S.Store conn.new) }

    // Nothing is changed, and no transaction is begun.
    ensures nothing_new { CrashAddsNothing (state S.Store conn.old) (state S.Store conn.new) }
    ensures outside { IsOutside (state S.Store conn.new) }
{
    // The clauses of these calls say that an open connection shows a database, and outside a transaction what is committed.
    let _begun = conn.is_autocommit();
    let read = read_all(alloc, conn);
    let _live = conn.schema();
    let _settled = conn.is_autocommit();
    if read.is_err() {
        if let Err(fault) = take_back(conn) {
            return Err(LoadFault::Fault(fault));
        }
    }
    read
}
