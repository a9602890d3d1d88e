//! The book: it has the store judge a command by what the tables mean, of which no more is read than that takes, and
//! commits what is accepted. A command that is only checked is judged in the same way, and not committed.
//! What contracts see of it is `specs/Kept.antt`. What an answer and a run come to are the records of
//! `specs/Answered.antt` and `specs/Ran.antt`, in the words of `specs/Headline.antt`.
//! Worked rows: `tests/answers.py`; the rows that are left: `tests/tables.py`. Wrong bodies: `must-fail/` and `must-fail-more/`.
ghost use Rattle.std.specs.Prelude.{ℕ, Result, ◌≡◌, ◌⊎◌, ◌||◌, ◌↔◌, false, Err, IfErr, IfOk, IsErrAnd, IsTrue, List, None, OnOk, Some};
ghost use Rattle.sqlite.specs.Held.{state};
ghost use Rattle.sqlite.specs.State.{HasCleanDisk};
ghost use Rattle.command.specs.declared.exceedance.Reply.{Reply};
ghost use Rattle.command.specs.declared.refusal.Refusal.{Refusal};
ghost use Rattle.roster.specs.Folds.{Asked, answer_of, next};
ghost use Rattle.roster.specs.State.{State, empty};
ghost use Rattle.roster.specs.Steps.{step_of};
ghost use Rattle.entries.specs.Right.{IsKey};
ghost use Rattle.loading.specs.Refusals.{tells};
ghost use Rattle.lookup.specs.Count.{IsCount};
ghost use Rattle.lookup.specs.Reads.{ChangesNothing, IsOpen};
ghost use Rattle.writing.specs.Commits.{AreTablesMade, IsNotMade};
ghost use Rattle.writing.specs.Making.{IsFree};
ghost use Rattle.state_rows.specs.Outcomes.{CrashLeavesSome, IsOutside};
ghost use Rattle.book.specs.Answered.{IsAnswered};
ghost use Rattle.book.specs.Ran.{HasRun};
ghost use Rattle.book.specs.Asking.{StepOutcome};
ghost use Rattle.book.specs.Headline.{IsRefusal, SparesOthers};
ghost use Rattle.store.specs.Typed.{HasUtf8};
ghost use Rattle.store.specs.Loaded.{IsLoaded, IsNotLoaded};
ghost use Rattle.part.specs.Shown.{Absence, IsShown, shown_part};
ghost use Rattle.book.specs.Kept.{HasOne, HasTablesOf, IsAnswerBy, IsCausedElsewhere, IsDurablyAt, IsClean, Keeps, KeepsEither, HasFoundBook, StillHolds, is_store_fault, result_of};

use crate::answer::{Answer, Run};
use command::{Command, Instruction, Key};
use duty::Pairing;
use roster::{Change, Roster, Verdict};
use sqlite::{Alter, Connection};
use std::alloc::Global;
use std::marker::Model;
use store::{CreateFault, LoadFault, RequestCount, Show, Store, StoreFault};
use time117::Zone;
use values::{MemoryFault, TryClone};

/// A book: it judges each command by what its tables mean, and keeps what it accepts. Contracts see what its store holds,
/// and whether it has answered a fault of the store.
pub struct Book<S: Alter> {
    store: Store<S>,
    failed: bool,
}

impl<S: Alter + Drop> Drop for Book<S> {
    fn drop(self) {
        let Book {
            store: _,
            failed: _,
        } = self;
    }
}

impl<S: Alter> Model for Book<S> {
    ghost use Rattle.std.specs.Prelude.{◌≡◌, false};
    ghost use Rattle.sqlite.specs.Held.{state};
    ghost use Rattle.state_rows.specs.Outcomes.{CrashLeavesSome};
    ghost use Rattle.book.specs.Kept.{HasOne, Kept, kept_code};

    ghost Value = { Kept S };

    ghost coded = { kept_code S.code };

    ghost view = { λ b. record { held = b.store; failed = b.failed } };

    ghost invariant = { λ b. CrashLeavesSome (state S.Store b.store)
        × (b.failed ≡ false → HasOne (state S.Store b.store)) };
}

impl<S: Alter> Book<S> {
    /// Makes an empty book of a zone. Refused is what [`Store::create`] refuses (43, 90, 91); then the connection is handed
    /// back.
    pub fn create(
        alloc: Global,
        conn: Connection<S>,
        zone: Zone,
    ) -> Result<Book<S>, (CreateFault, Connection<S>)>
        // No transaction is begun.
        requires { IsOutside (state S.Store conn) }

        // The book: it has not failed, its tables are made, and a crash leaves it empty.
        ensures fresh { IfOk result (λ b. b.failed ≡ false) }
        ensures made { IfOk result
            (λ b. AreTablesMade (state S.Store conn) (state S.Store b.held) (empty zone)) }
        ensures kept { IfOk result (λ b. IsDurablyAt S.Store b (empty zone)) }

        // A refusal: what is left after it, and that a database with such a table is refused.
        ensures not_made { IfErr result (λ e. IsNotMade S.Store conn e.1 (empty zone) e.0) }
        ensures refused { (¬ IsFree (state S.Store conn).now.schema)
            → IsErrAnd result (λ e. e.0 ≡ CreateFault.NotEmpty) }
    {
        // A clause of this call says that the zone is a rule text, as its type ensures.
        let _rule = zone.text();
        match Store::create(alloc, conn, &zone) {
            Ok(store) => Ok(Book::over(store)),
            Err(refused) => Err(refused),
        }
    }

    /// Takes up the book that a crash or anybody left. One of version 1 becomes one of version 2, in one transaction; of one
    /// of version 2 nothing is changed. Refused is what [`Store::load`] refuses (40, 41, 42, 90, 91); then the connection is
    /// handed back, and the book that a crash leaves is still the one that was there.
    pub fn adopt(alloc: Global, conn: Connection<S>) -> Result<Book<S>, (LoadFault, Connection<S>)>
        // No transaction is begun.
        requires { IsOutside (state S.Store conn) }

        // The book: it has not failed, and is the one that was found; of one of version 2 nothing is changed.
        ensures fresh { IfOk result (λ b. b.failed ≡ false) }
        ensures means { IfOk result (λ b. HasFoundBook (state S.Store conn)
            (state S.Store b.held)) }
        ensures kept { (s : State) → KeepsEither (state S.Store conn) s
            → IfOk result (λ b. IsDurablyAt S.Store b s) }
        ensures loaded { IfOk result (λ b. (s : State)
            × IsLoaded (state S.Store conn) (state S.Store b.held) s) }
        ensures disk { IfOk result (λ b. IsClean S.Store b → HasCleanDisk (state S.Store conn)) }

        // A refusal: why, and that a crash leaves the book that was there, in one version or the other.
        ensures not_loaded { IfErr result
            (λ e. IsNotLoaded (state S.Store conn) (state S.Store e.1) e.0) }
        ensures again { (s : State) → Keeps (state S.Store conn) s
            → IfErr result (λ e. Keeps (state S.Store e.1) s) }
        ensures again_either { (s : State) → KeepsEither (state S.Store conn) s
            → IfErr result (λ e. KeepsEither (state S.Store e.1) s) }

        // If a crash leaves one state, which tables may mean, and the connection is open, the book isn't refused for its
        // tables (40, 41, 42).
        ensures not_refused { (s : State) → KeepsEither (state S.Store conn) s
            → IsOpen (state S.Store conn) → IfErr result
            (λ e. HasCleanDisk (state S.Store e.1) → tells e.0 ≡ false) }
    {
        // The clauses of these calls say that an open connection shows a database, and outside a transaction what is committed.
        let _live = conn.schema();
        let _settled = conn.is_autocommit();
        match Store::load(alloc, conn) {
            Ok(store) => Ok(Book::over(store)),
            Err(refused) => Err(refused),
        }
    }

    /// Makes a book that has not failed, over a store whose tables mean a state.
    fn over(store: Store<S>) -> Book<S>
        requires { HasOne (state S.Store store) }
        ensures held { result.held ≡ store }
        ensures fresh { result.failed ≡ false }
    {
        Book {
            store,
            failed: false,
        }
    }

    /// Returns whether the book has answered a fault of the store (90).
    pub fn has_failed(&self) -> bool
        ensures { result ≡ self.now.failed }
    {
        self.failed
    }

    /// Reads a roster with just what the text of a member, of a member's limits, of a pairing, of the exceedances, of a list, of a
    /// board or of a request needs: that text of it is the text of the state that the tables mean. No table is changed. After out of
    /// memory (91) the call may be made again; after a fault of the store (90) each later call answers 90.
    pub fn show(&mut self, alloc: Global, what: &Show) -> Result<Roster, StoreFault>
        // Whether it has failed: a book that has answers 90 and does nothing.
        ensures failed { self.new.failed ≡ (self.old.failed || is_store_fault result) }
        ensures shut { IsTrue self.old.failed
            → (result ≡ Err StoreFault.Store) × (self.new ≡ self.old) }

        // Nothing is changed, a crash leaves something, and a fault of the store has a cause.
        ensures unchanged { ChangesNothing (state S.Store self.old.held)
            (state S.Store self.new.held) }
        ensures some_left { CrashLeavesSome (state S.Store self.new.held) }
        ensures caused { self.old.failed ≡ false → IfErr result
            (IsCausedElsewhere (state S.Store self.old.held) (state S.Store self.new.held)) }

        // The text, by the state that the tables mean.
        ensures text { (s : State) → IsDurablyAt S.Store self.old s → IsClean S.Store self.new
            → IfOk result (λ roster. (shown : Result (List ℕ) Absence)
            → IsShown roster what.now shown ↔ IsShown s what.now shown) }

        // The part of that state which its text needs, and no more.
        ensures part { (s : State) → IsDurablyAt S.Store self.old s → IsClean S.Store self.new
            → IfOk result (λ roster. roster ≡ shown_part s what.now) }

        // The state stays: a crash leaves it, and the tables mean it.
        ensures kept { (s : State) → IsDurablyAt S.Store self.old s
            → IsDurablyAt S.Store self.new s }
        ensures shown { (s : State) → IsDurablyAt S.Store self.old s
            → HasTablesOf S.Store self.old s → OnOk result (HasTablesOf S.Store self.new s) }
    {
        if self.failed {
            return Err(StoreFault::Store);
        }
        let shown = self.store.read_shown(alloc, what);
        self.failed = is_of_store(&shown);
        shown
    }

    /// Reads how many requests are kept, and which number is free for the next. No command is read, and no table is changed.
    /// After out of memory (91) the call may be made again; after a fault of the store (90) each later call answers 90.
    pub fn count(&mut self, alloc: Global) -> Result<RequestCount, StoreFault>
        // As of `show`.
        ensures failed { self.new.failed ≡ (self.old.failed || is_store_fault result) }
        ensures shut { IsTrue self.old.failed
            → (result ≡ Err StoreFault.Store) × (self.new ≡ self.old) }
        ensures unchanged { ChangesNothing (state S.Store self.old.held)
            (state S.Store self.new.held) }
        ensures some_left { CrashLeavesSome (state S.Store self.new.held) }
        ensures caused { self.old.failed ≡ false → IfErr result
            (IsCausedElsewhere (state S.Store self.old.held) (state S.Store self.new.held)) }

        // The count, by the state that the tables mean.
        ensures count { (s : State) → IsDurablyAt S.Store self.old s → IsClean S.Store self.new
            → IfOk result (IsCount s) }

        // The state stays: a crash leaves it, and the tables mean it.
        ensures kept { (s : State) → IsDurablyAt S.Store self.old s
            → IsDurablyAt S.Store self.new s }
        ensures shown { (s : State) → IsDurablyAt S.Store self.old s
            → HasTablesOf S.Store self.old s → OnOk result (HasTablesOf S.Store self.new s) }
    {
        if self.failed {
            return Err(StoreFault::Store);
        }
        let count = self.store.count(alloc);
        self.failed = is_of_store(&count);
        count
    }

    /// Judges a command by the part of the state that it needs, and answers as [`Book::ask`] would now: one that is kept
    /// already as it was. Nothing is kept, and no table is changed. After out of memory (91) the call may be made again; after a
    /// fault of the store (90) each later call answers 90.
    pub fn check(
        &mut self,
        alloc: Global,
        key: Key,
        command: &Command,
    ) -> Result<Answer, StoreFault>
        // As of `show`.
        ensures failed { self.new.failed ≡ (self.old.failed || is_store_fault result) }
        ensures shut { IsTrue self.old.failed
            → (result ≡ Err StoreFault.Store) × (self.new ≡ self.old) }
        ensures unchanged { ChangesNothing (state S.Store self.old.held)
            (state S.Store self.new.held) }
        ensures some_left { CrashLeavesSome (state S.Store self.new.held) }
        ensures caused { self.old.failed ≡ false → IfErr result
            (IsCausedElsewhere (state S.Store self.old.held) (state S.Store self.new.held)) }

        // The answer, by the state that the tables mean.
        ensures reply { (s : State) → IsDurablyAt S.Store self.old s → IsClean S.Store self.new
            → IfOk result (λ a. result_of a ≡ answer_of (step_of s key command.now)) }

        // The state stays: a crash leaves it, and the tables mean it.
        ensures kept { (s : State) → IsDurablyAt S.Store self.old s
            → IsDurablyAt S.Store self.new s }
        ensures shown { (s : State) → IsDurablyAt S.Store self.old s
            → HasTablesOf S.Store self.old s → OnOk result (HasTablesOf S.Store self.new s) }
    {
        if self.failed {
            return Err(StoreFault::Store);
        }
        let verdict = self.store.judge(alloc, key, command);
        self.failed = is_of_store(&verdict);
        answered_by(verdict)
    }

    /// Hands back the connection, with nothing changed.
    pub fn into_connection(self) -> Connection<S>
        ensures same { result ≡ self.held }
        ensures outside { IsOutside (state S.Store result) }
    {
        let Book { store, failed: _ } = self;
        store.into_connection()
    }

    /// Answers a command by the part of the state that it needs. One that is kept already is answered as it was, and changes
    /// nothing; one that the machine refuses changes nothing either. After out of memory (91) nothing is changed, and the call
    /// may be made again; after a fault of the store (90) it is kept or not, and each later call answers 90.
    pub fn ask(&mut self, alloc: Global, key: Key, command: &Command) -> Result<Answer, StoreFault>
        ensures { IsAnswered S.Store self.old self.new (key, command.now) result }
    {
        // It has no fault, which what is honest afterwards rests on.
        let _made = command.instruction();
        if self.failed {
            return Err(StoreFault::Store);
        }
        let answer = match self.store.judge(alloc, key, command) {
            Ok(verdict) => decide_by(alloc, &mut self.store, verdict),
            Err(fault) => Err(fault),
        };
        self.failed = is_of_store(&answer);
        answer
    }

    /// Asks for a pairing to be added, as [`Book::ask`] does.
    pub(crate) fn add(
        &mut self,
        alloc: Global,
        key: Key,
        pairing: &Pairing,
    ) -> Result<Answer, StoreFault>
        ensures { IsAnswered S.Store self.old self.new (key, Instruction.AddPairing pairing.now)
            result }
    {
        if self.failed {
            return Err(StoreFault::Store);
        }
        let Ok(command) = adding(alloc, pairing) else {
            return Err(StoreFault::Memory);
        };
        let answer = self.ask(alloc, key, &command);
        drop(command);
        answer
    }

    /// Answers commands in turn, up to the first fault. Room for all answers is made before the first; for none there is
    /// no need of memory.
    pub fn run(&mut self, alloc: Global, commands: &[(Key, Command)]) -> Run
        ensures { HasRun S.Store self.old self.new commands.now result }
    {
        if self.failed {
            return stop_with(Vec::new(alloc), StoreFault::Store);
        }
        if commands.is_empty() {
            return Run {
                answers: Vec::new(alloc),
                fault: None,
            };
        }
        let Ok(mut answers) = Vec::with_capacity(alloc, commands.len()) else {
            return stop_with(Vec::new(alloc), StoreFault::Memory);
        };
        for (key, command) in commands {
            // As in `ask`.
            let _made = command.instruction();
            match self.ask(alloc, *key, command) {
                Ok(answer) => {
                    let _ = answers.push(answer);
                }
                Err(fault) => return stop_with(answers, fault),
            }
        }
        Run {
            answers,
            fault: None,
        }
    }
}

/// Makes the command that adds a pairing.
#[tactic(auto, unfolding(command::specs::Instructions::instruction_fault))]
fn adding(alloc: Global, pairing: &Pairing) -> Result<Command, MemoryFault>
    ensures { IfOk result (λ command. command ≡ Instruction.AddPairing pairing.now) }
{
    // It has no fault, and so the command has none.
    let _sound = pairing.periods();
    match Command::new(Instruction::AddPairing(pairing.try_clone(alloc)?)) {
        Ok(command) => Ok(command),
        Err(_fault) => unreachable!(),
    }
}

fn stop_with(answers: Vec<Answer>, fault: StoreFault) -> Run
    ensures answers { result.answers ≡ answers }
    ensures fault { result.fault ≡ Some fault }
{
    Run {
        answers,
        fault: Some(fault),
    }
}

/// Names the answer that a verdict gives.
fn answered_by(verdict: Result<Verdict, StoreFault>) -> Result<Answer, StoreFault>
    ensures { IsAnswerBy verdict result }
{
    match verdict? {
        Verdict::Repeat(kept) => Ok(Answer::Accepted(kept)),
        Verdict::Accept(change, given) => {
            drop(change);
            Ok(Answer::Accepted(given))
        }
        Verdict::Refuse(why) => Ok(Answer::Refused(why)),
    }
}

/// Returns whether an answer is a fault of the store.
fn is_of_store<T>(answer: &Result<T, StoreFault>) -> bool
    ensures { result ≡ is_store_fault answer.now }
{
    matches!(answer, Err(StoreFault::Store))
}

/// Answers a command by the verdict on it, and keeps in the store what that accepts. Whatever needs memory is made before
/// the commit.
fn decide_by<S: Alter>(
    alloc: Global,
    store: &mut Store<S>,
    verdict: Verdict,
) -> Result<Answer, StoreFault>
    // The connection is open.
    requires opened { IsOpen (state S.Store store.old) }

    // The disk, what was done, and the answer, for each state in which a command has this verdict.
    ensures disk { HasCleanDisk (state S.Store store.new)
        → HasCleanDisk (state S.Store store.old) }
    ensures did { (s : State) (asked : Asked) → Keeps (state S.Store store.old) s
        → StillHolds (state S.Store store.old) s → (HasCleanDisk (state S.Store store.old)
        → verdict ≡ step_of s asked.0 asked.1)
        → StepOutcome (state S.Store store.old) (state S.Store store.new) s (next s asked)
        result }
    ensures reply { IfOk result (λ a. result_of a ≡ answer_of verdict) }

    // A repeat and a refusal change nothing.
    ensures repeated { (reply : Reply) → verdict ≡ Verdict.Repeat reply
        → (store.new ≡ store.old) × (is_store_fault result ≡ false)
        × IfOk result (λ a. a ≡ Answer.Accepted reply) }
    ensures turned_down { (refusal : Refusal) → verdict ≡ Verdict.Refuse refusal
        → (store.new ≡ store.old) × (is_store_fault result ≡ false)
        × IfOk result (λ a. a ≡ Answer.Refused refusal) }
    ensures refused { IfOk result (λ a. IsRefusal a → store.new ≡ store.old) }

    // What stands beside the book in the database.
    ensures others_spared { (s : State) (asked : Asked) → Keeps (state S.Store store.old) s
        → (HasCleanDisk (state S.Store store.old) → verdict ≡ step_of s asked.0 asked.1)
        → OnOk result ((store.new ≡ store.old)
        ⊎ SparesOthers (state S.Store store.old) (state S.Store store.new)) }
{
    match verdict {
        Verdict::Repeat(reply) => Ok(Answer::Accepted(reply)),
        Verdict::Refuse(refusal) => Ok(Answer::Refused(refusal)),
        Verdict::Accept(change, reply) => {
            read_types(&change);
            let kept = store.commit(alloc, &change);
            drop(change);
            match kept {
                Ok(()) => Ok(Answer::Accepted(reply)),
                Err(fault) => Err(fault),
            }
        }
    }
}

/// Reads of a change what the types of its parts ensure, for the prover alone.
fn read_types(change: &Change)
    ensures key { IsKey change.now.key }
    ensures utf8 { HasUtf8 change.now.command }
{
    let _number = change.key.number().get();
    let _part = change.key.part();
    match change.command.instruction() {
        Instruction::AddCrew(_, member) => {
            let _name = member.name.as_str().as_bytes();
        }
        Instruction::AddGround(ground) => {
            let _task = ground.task().as_str().as_bytes();
        }
        _ => {}
    }
}
