//! A book in a file: only here are there paths.
//! Through the program: `tests/program.sh`. Wrong bodies: `must-fail/` and `must-fail-more/`.

ghost use Rattle.std.specs.Prelude.{◌≡◌, ◌≢◌, ◌⊎◌, false, IfErr, IfOk, IfSome, IsSome, None};
ghost use Rattle.sqlite_wal.specs.Files.{image_at};
ghost use Rattle.sqlite.specs.Files.{IsOpened, file_state, over_files};
ghost use Rattle.sqlite.specs.Held.{state};
ghost use Rattle.sqlite.specs.Start.{FindsIn};
ghost use Rattle.sqlite.specs.State.{HasCleanDisk};
ghost use Rattle.loading.specs.Loading.{Justifies};
ghost use Rattle.roster.specs.State.{State, empty};
ghost use Rattle.state_rows.specs.Outcomes.{IsOutside};
ghost use Rattle.writing.specs.Making.{IsFree};
ghost use Rattle.book.specs.Kept.{IsClean, IsDurablyAt, HasFoundBook};
ghost use Rattle.book.specs.Found.{HasFreeNames, IsCleanLeft, IsFaultOf, LeavesBook, IsUnclosed, LeavesByCrash, MeansWhatIsIn};

use crate::keeping::Book;
use sqlite::{Alter, Connection, Error, ErrorCode, FileFrom, FileStore, Files, Start, Wary};
use sqlite_disk::Disk;
use std::alloc::Global;
use std::fs::exists;
use store::{CreateFault, LoadFault, StoreFault};
use time117::Zone;

/// A book in the files of a path: the database, and its log beside it. Of a write that a crash tears nothing is supposed.
pub type FileBook = Book<FileStore<FileFrom<Wary>>>;

/// What is left of the files of a book.
pub enum FilesLeft<D: Disk> {
    /// The files, closed: what was committed is copied from the log into the database.
    Closed(Files<D>),
    /// The store over them, where that wasn't done: what was committed may stand in the log alone.
    Unclosed(FileStore<D>),
}

impl<D: Disk + Drop> Drop for FilesLeft<D> {
    fn drop(self) {
        match self {
            FilesLeft::Closed(_files) => {}
            FilesLeft::Unclosed(_store) => {}
        }
    }
}

/// Why no book was taken up from files.
#[derive(Drop)]
pub struct NotTaken<D: Disk> {
    /// The refusal: 40, 41, 42, 90 or 91.
    pub fault: LoadFault,
    /// What is left of the files, if they were opened.
    pub left: Option<FilesLeft<D>>,
}

impl<D: Disk> NotTaken<D> {
    /// No files were opened.
    fn without_files(fault: LoadFault) -> NotTaken<D>
        ensures fault { result.fault ≡ fault }
        ensures left { result.left ≡ None }
    {
        NotTaken { fault, left: None }
    }
}

impl<S: Start> Book<FileStore<FileFrom<S>>> {
    /// Opens the file of a path and takes up the book in it, as [`Book::adopt`] does: one of version 1 becomes one of version 2.
    /// A file that isn't there is no book (40), and isn't made; one that `sqlite` doesn't open is 90, or 91 where it finds no
    /// memory. `start` stands for what the files hold.
    pub fn open_from(
        rt: &HostRuntime,
        path: &str,
        start: S,
    ) -> Result<Book<FileStore<FileFrom<S>>>, NotTaken<FileFrom<S>>>
        ensures fresh { IfOk result (λ b. b.failed ≡ false) }
        ensures means { IfOk result
            (λ b. IsClean over_files b → MeansWhatIsIn (image_at S.Start) (file_state b.held)) }

        // A refusal: of files that aren't opened 40, 90 or 91, and of others that of what is found in them.
        ensures unopened { IfErr result (λ it. it.left ≡ None
            → (it.fault ≡ LoadFault.NotABook)
            ⊎ ((fault : StoreFault) × (it.fault ≡ LoadFault.Fault fault))) }
        ensures refused { IfErr result (λ it. IfSome it.left
            (λ left. IsCleanLeft left → IsFaultOf (image_at S.Start) it.fault)) }
    {
        if matches!(exists(rt, path), Ok(false)) {
            return Err(NotTaken::without_files(LoadFault::NotABook));
        }
        match connect(rt, path, start) {
            Ok(conn) => adopt_over(rt.alloc(), conn),
            Err(fault) => Err(NotTaken::without_files(LoadFault::Fault(fault))),
        }
    }
}

impl FileBook {
    /// Opens the book of the file that is there.
    pub fn open(rt: &HostRuntime, path: &str) -> Result<FileBook, LoadFault>
        ensures fresh { IfOk result (λ b. b.failed ≡ false) }
    {
        match Book::open_from(rt, path, Wary) {
            Ok(book) => Ok(book),
            Err(refused) => Err(refused.fault),
        }
    }
}

impl<D: Disk + Drop> Book<FileStore<D>> {
    /// Closes the files. What is committed stands in the log, whether or not it is copied into the
    /// database now.
    pub fn close(self) -> FilesLeft<D>
        ensures disk { IsCleanLeft result → IsClean over_files self }
        ensures kept { (s : State) → IsDurablyAt over_files self s → IsCleanLeft result
            → LeavesBook result s }
        ensures crash { IsCleanLeft result → LeavesByCrash self result }
    {
        match self.into_connection().close_files() {
            Ok(files) => FilesLeft::Closed(files),
            Err((_error, store)) => FilesLeft::Unclosed(store),
        }
    }

    /// Lets go of the files as they are.
    pub fn leave(self) -> FilesLeft<D>
        ensures disk { IsCleanLeft result → IsClean over_files self }
        ensures kept { (s : State) → IsDurablyAt over_files self s → IsCleanLeft result
            → LeavesBook result s }
        ensures crash { IsCleanLeft result → LeavesByCrash self result }
        ensures unclosed { IsUnclosed result }
    {
        FilesLeft::Unclosed(self.into_connection().into_store())
    }
}

/// Makes an empty book of a zone in a new or empty file, as [`Book::create`] does, and closes it: none where a name of its
/// tables is taken (43). A file that `sqlite` doesn't open is 90, or 91 where it finds no memory. `start` stands for what the
/// files hold.
pub fn create_from<S: Start>(
    rt: &HostRuntime,
    path: &str,
    zone: Zone,
    start: S,
) -> Result<FilesLeft<FileFrom<S>>, CreateFault>
    ensures { IfOk result (λ left. IsCleanLeft left
        → HasFreeNames (image_at S.Start) × LeavesBook left (empty zone)) }
{
    let book = create_over(rt.alloc(), connect(rt, path, start)?, zone)?;
    Ok(book.close())
}

/// Makes the book over a connection.
fn create_over<S: Alter + Drop>(
    alloc: Global,
    conn: Connection<S>,
    zone: Zone,
) -> Result<Book<S>, CreateFault>
    requires { IsOutside (state S.Store conn) }
    ensures free { IfOk result (λ _. IsFree (state S.Store conn).now.schema) }
    ensures disk { IfOk result (λ b. IsClean S.Store b → HasCleanDisk (state S.Store conn)) }
    ensures made { IfOk result (λ b. IsDurablyAt S.Store b (empty zone)) }
{
    match Book::create(alloc, conn, zone) {
        Ok(book) => Ok(book),
        Err((fault, _conn)) => Err(fault),
    }
}

/// Adopts the book that a connection has. Of one that is refused the files are left as they are.
fn adopt_over<D: Disk + Drop>(
    alloc: Global,
    conn: Connection<FileStore<D>>,
) -> Result<Book<FileStore<D>>, NotTaken<D>>
    requires { IsOutside (file_state conn) }
    ensures fresh { IfOk result (λ b. b.failed ≡ false) }
    ensures means { IfOk result (λ b. HasFoundBook (file_state conn) (file_state b.held)) }
    ensures disk { IfOk result (λ b. IsClean over_files b → HasCleanDisk (file_state conn)) }
    ensures opened { IfErr result (λ it. IsSome it.left) }
    ensures refused { IfErr result (λ it. IfSome it.left (λ left. IsCleanLeft left
        → HasCleanDisk (file_state conn) × Justifies it.fault (file_state conn).now)) }
{
    match Book::adopt(alloc, conn) {
        Ok(book) => Ok(book),
        Err((fault, conn)) => Err(NotTaken {
            fault,
            left: Some(FilesLeft::Unclosed(conn.into_store())),
        }),
    }
}

/// Opens a connection to the files of a path, which are made where they are not there.
fn connect<S: Start>(
    rt: &HostRuntime,
    path: &str,
    start: S,
) -> Result<Connection<FileStore<FileFrom<S>>>, StoreFault>
    ensures opened { IfOk result (λ c. HasCleanDisk (file_state c) → IsOpened c) }
    ensures found { IfOk result
        (λ c. HasCleanDisk (file_state c) → FindsIn (image_at S.Start) (file_state c)) }
    ensures outside { IfOk result (λ c. IsOutside (file_state c)) }
{
    match Connection::open_from(rt, path, false, start) {
        Ok(conn) => Ok(conn),
        Err((error, _left)) => Err(fault_of(error)),
    }
}

/// Names a refused opening: 91 for out of memory, and else 90.
fn fault_of(error: Error) -> StoreFault
    ensures memory { error ≡ Error.SqliteFailure ErrorCode.OutOfMemory
        → result ≡ StoreFault.Memory }
    ensures store { error ≢ Error.SqliteFailure ErrorCode.OutOfMemory → result ≡ StoreFault.Store }
{
    match error {
        Error::SqliteFailure(ErrorCode::OutOfMemory) => StoreFault::Memory,
        _ => StoreFault::Store,
    }
}
