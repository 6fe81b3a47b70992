//! Several files, fed to one book by a thread each.
ghost use Rattle.std.specs.Prelude.{◌≡◌, ◌≤◌, [], All, IfErr, IfOk, IfSome, false, length, map, vec_len, vec_capacity};
ghost use Rattle.std.specs.List.{list_any, sum_by};
ghost use Rattle.commit_book.specs.Headline.{IsProved};
ghost use Rattle.line_engine.specs.Lines.{max_files};
ghost use Rattle.sessions.specs.Closing.{HasEntries};
ghost use Rattle.sessions.specs.Seat.{count_of};
ghost use Rattle.sessions.specs.FeedReports.{AreNotesFor, IsFeedReport, MayBeFed};
ghost use Rattle.sessions.specs.inner.Crossings.{IsFirstHeld};
ghost use Rattle.sessions.specs.inner.Fed.{AreGathered, AreToStart, HasRoom, IsFedFile, IsReceiptLost, handed_to};

use crate::closing::close_by_threads;
use crate::crossing::first_crossing;
use crate::fed_file::{FedFile, FileOf, fed_file};
use crate::kept_notes::KeptNotes;
use crate::noted_book::NotedBook;
use crate::opening::open_noted;
use crate::refused_wagons::{RefusedWagons, are_some_lost};
use crate::{BookLedger, CloseFault, FeedFault, FeedReport, FileCount, Seat, SharedBook};
use commit_book::Book;
use line_engine::Source;
use line_network::{Network, Networks};
use std::alloc::{AllocError, Global};
use std::marker::Brand;
use std::snapshot::Snapshot;
use std::sync::ledger::Blank;
use std::sync::{Arc, Wait};
use std::thread;
use std::thread::{PromisedHandle, Scope, Threads};

/// A thread that brings a file's lines to its seat.
type Running<L, R> = PromisedHandle<FedFile<L, R>, FileOf<R>>;

/// Memory for what comes of the files, allocated before any thread is started.
#[derive(Drop)]
struct Room<L: BookLedger, R: Source> {
    running: Vec<Running<L, R>>,
    files: Vec<FileCount<R>>,
    seats: Vec<Seat<L>>,
    refused: Vec<RefusedWagons>,
}

/// What a thread brings lines to, and with what.
struct Feeding<'e, L: BookLedger, T> {
    rt: &'e T,
    alloc: Global,
    shared: &'e SharedBook<L>,
    networks: &'e Networks,
}

/// What came of the files: their counts, their seats, and the wagons of their messages that the status table refused.
#[derive(Drop)]
struct Fed<L: BookLedger, R> {
    files: Vec<FileCount<R>>,
    seats: Vec<Seat<L>>,
    refused: Vec<RefusedWagons>,
}

/// Brings the command lines of 1 to 16 readers to a book without entries, by a thread and a seat for each, and answers what
/// became of each file, in their order, and the book. Lines of several files are taken in as they come: up to 64 messages of a
/// file in a row, where as many have been read, and all that have been before its reader is asked for more.
///
/// A message, an order, a withdrawal, a revision and a commit count as they are answered. A plan line is a begin, planning
/// with no lock held, and a commit of the plan's certificate; it counts as that commit's answer, or as refused where the
/// begin or the planning was. A begin counts only where it is refused; a sheet line is skipped; a line that isn't read
/// counts as refused. A file stops at 1,000,001 lines (91), at a line of over 65,536 bytes (92), where its reader fails (93),
/// or where memory is refused before its first line (1); the other files go on.
///
/// Lines count in the file's order, each by the answer that a book of the same setting gives to its own event. An accepted one
/// gives the file's seat a receipt, and each receipt is an entry of the book that is handed back, whose setting stays.
///
/// Where two files move one wagon, the report names the first such wagon and the two files.
///
/// Refused with `OutOfMemory` (1) before any thread is started; with `NoThread` (46) where no thread could be started for a
/// file, after those that ran have ended; with `ReceiptLost` (96) as `close` says. May wait.
pub fn feed<T: Threads + Wait + Sync, R: Source + Send + Drop>(
    rt: &T,
    alloc: Global,
    readers: Vec<R>,
    book: Book,
) -> Result<FeedReport<R>, FeedFault>
    requires given { MayBeFed R.has_failed readers book }
    ensures report { IfOk result (IsFeedReport book.setting R.remaining R.has_failed readers.items) }
{
    feed_book(rt, alloc, readers, NotedBook { book, notes: None })
}

/// The same with notes of the lines, where these are the book's networks. Each line's notes are made while the book answers it, so
/// that they are those of the book just before and after it. Where memory is refused for a line or its notes, the report says that
/// notes are missing, and the lines are answered as without notes.
pub fn feed_noted<T: Threads + Wait + Sync, R: Source + Send + Drop>(
    rt: &T,
    alloc: Global,
    readers: Vec<R>,
    book: Book,
    networks: Vec<Network>,
) -> Result<FeedReport<R>, FeedFault>
    requires given { MayBeFed R.has_failed readers book }
    requires networks { networks.items ≡ book.setting.networks }
    ensures report { IfOk result (IsFeedReport book.setting R.remaining R.has_failed readers.items) }
{
    let Ok(notes) = KeptNotes::new(alloc, &book, networks) else {
        return Err(FeedFault::OutOfMemory);
    };
    let notes = Some(notes);
    feed_book(rt, alloc, readers, NotedBook { book, notes })
}

/// The same, with notes where the book has some.
fn feed_book<T: Threads + Wait + Sync, R: Source + Send + Drop>(
    rt: &T,
    alloc: Global,
    readers: Vec<R>,
    noted: NotedBook,
) -> Result<FeedReport<R>, FeedFault>
    requires given { MayBeFed R.has_failed readers noted.book }
    ensures report { IfOk result (IsFeedReport noted.book.setting R.remaining R.has_failed readers.items) }
{
    let Ok(networks) = Arc::try_clone(noted.book.networks()) else {
        return Err(FeedFault::OutOfMemory);
    };
    let blank = Blank::new(readers.len() as u64);
    feed_by::<Brand, T, R>(rt, alloc, blank, readers, noted, &networks)
}

/// The same, over a ledger with a part for each file. The networks are the book's.
fn feed_by<L: BookLedger + Send + Sync, T: Threads + Wait + Sync, R: Source + Send + Drop>(
    rt: &T,
    alloc: Global,
    blank: Blank,
    readers: Vec<R>,
    noted: NotedBook,
    networks: &Networks,
) -> Result<FeedReport<R>, FeedFault>
    requires ledger { blank.name ≡ L.name }
    requires parts { blank.parts ≡ L.parts }
    requires one_each { blank.parts ≡ vec_len readers }
    requires given { MayBeFed R.has_failed readers noted.book }
    requires own { noted.book.setting ≡ L.setting }
    requires over { networks.now ≡ L.setting.networks }
    ensures report { IfOk result (IsFeedReport L.setting R.remaining R.has_failed readers.items) }
{
    let count = readers.len();
    let Ok(room) = Room::new(alloc, count) else {
        return Err(FeedFault::OutOfMemory);
    };
    let Ok((shared, seats)) = open_noted::<L>(alloc, blank, noted, count as u32) else {
        return Err(FeedFault::OutOfMemory);
    };
    let feeding = Feeding {
        rt,
        alloc,
        shared: &shared,
        networks,
    };
    match fed_in_threads(feeding, readers, seats, room) {
        Ok(fed) => closed(rt, shared, fed),
        Err(fault) => Err(fault),
    }
}

impl<L: BookLedger, R: Source + Drop> Room<L, R> {
    /// Memory for so many files.
    fn new(alloc: Global, count: usize) -> Result<Room<L, R>, AllocError>
        ensures running { IfOk result (λ room. (room.running.items ≡ []) × (count ≤ vec_capacity room.running)) }
        ensures done { IfOk result (λ room. HasRoom count room.files room.seats room.refused) }
    {
        let running = Vec::with_capacity(alloc, count)?;
        let files = Vec::with_capacity(alloc, count)?;
        let seats = Vec::with_capacity(alloc, count)?;
        let refused = Vec::with_capacity(alloc, count)?;
        Ok(Room {
            running,
            files,
            seats,
            refused,
        })
    }
}

/// What came of all files, each brought to its seat by a thread of its own.
fn fed_in_threads<L: BookLedger + Send + Sync, T: Threads + Wait + Sync, R: Source + Send + Drop>(
    feeding: Feeding<'_, L, T>,
    readers: Vec<R>,
    seats: Vec<Seat<L>>,
    room: Room<L, R>,
) -> Result<Fed<L, R>, FeedFault>
    requires ready { AreToStart R.has_failed readers seats room.running }
    requires room { HasRoom (vec_len readers) room.files room.seats room.refused }
    requires over { feeding.networks.now ≡ L.setting.networks }
    ensures { IfOk result (λ fed. AreGathered L.setting R.remaining R.has_failed readers.items fed.files.items fed.seats.items fed.refused.items) }
{
    let Feeding {
        rt,
        alloc,
        shared,
        networks,
    } = feeding;
    thread::scope(
        thread::scope_env(),
        rt,
        |scope| -> Result<Fed<L, R>, FeedFault>
            requires ready { AreToStart R.has_failed readers seats room.running }
            requires room { HasRoom (vec_len readers) room.files room.seats room.refused }
            requires over { networks.now ≡ L.setting.networks }
            ensures { IfOk result (λ fed. AreGathered L.setting R.remaining R.has_failed readers.items fed.files.items fed.seats.items fed.refused.items) }
        {
            let Room {
                running,
                files,
                seats: done,
                refused,
            } = room;
            let feeding = Feeding {
                rt,
                alloc,
                shared,
                networks,
            };
            match started(scope, feeding, readers, seats, running) {
                Ok(running) => Ok(gathered(rt, running, files, done, refused)),
                Err(running) => {
                    drop_all(rt, running);
                    Err(FeedFault::NoThread)
                }
            }
        },
    )
}

/// The threads of all files; those that run, where one could not be started.
fn started<
    's,
    'e: 's,
    L: BookLedger + Send + Sync + 'e,
    T: Threads + Wait + Sync,
    R: Source + Send + Drop + 'e,
>(
    scope: &'s Scope<'s, &'e ()>,
    feeding: Feeding<'e, L, T>,
    readers: Vec<R>,
    seats: Vec<Seat<L>>,
    running: Vec<Running<L, R>>,
) -> Result<Vec<Running<L, R>>, Vec<Running<L, R>>>
    requires ready { AreToStart R.has_failed readers seats running }
    requires over { feeding.networks.now ≡ L.setting.networks }
    ensures { IfOk result (λ running. map (λ handle. handed_to handle.promise) running.items ≡ readers.items) }
{
    let Feeding {
        rt,
        alloc,
        shared,
        networks,
    } = feeding;
    let mut running = running;
    let mut seats = seats.into_iter();
    for reader in readers {
        let Some(seat) = seats.next() else {
            unreachable!()
        };
        let before = FileOf {
            reader: Snapshot::of(&reader),
        };
        let work = move || -> FedFile<L, R>
            requires fresh { R.has_failed reader ≡ false }
            requires new { count_of seat ≡ 0 }
            requires over { networks.now ≡ L.setting.networks }
            ensures { IsFedFile L.setting R.remaining R.has_failed reader result }
        { fed_file(rt, alloc, shared, networks, seat, reader) };
        match scope.spawn_with(before, work) {
            Ok(handle) => running.push_reserved(handle),
            Err(_) => return Err(running),
        }
    }
    Ok(running)
}

/// What came of the files, each of whose threads has ended.
fn gathered<L: BookLedger, T: Threads, R: Source + Drop>(
    rt: &T,
    running: Vec<Running<L, R>>,
    files: Vec<FileCount<R>>,
    seats: Vec<Seat<L>>,
    refused_wagons: Vec<RefusedWagons>,
) -> Fed<L, R>
    requires { HasRoom (vec_len running) files seats refused_wagons }
    ensures { AreGathered L.setting R.remaining R.has_failed (map (λ handle. handed_to handle.promise) running.items) result.files.items result.seats.items result.refused.items }
{
    let mut files = files;
    let mut seats = seats;
    let mut refused_wagons = refused_wagons;
    for handle in running {
        let FedFile {
            seat,
            repeated,
            refused,
            out_of_step,
            failed,
            reader,
        } = handle.join(rt);
        let accepted = seat.count();
        files.push_reserved(FileCount {
            accepted,
            repeated,
            refused,
            failed,
            reader,
        });
        seats.push_reserved(seat);
        refused_wagons.push_reserved(out_of_step);
    }
    Fed {
        files,
        seats,
        refused: refused_wagons,
    }
}

/// Waits for threads whose files are no longer needed.
fn drop_all<L: BookLedger, T: Threads, R: Source + Drop>(rt: &T, running: Vec<Running<L, R>>) {
    for handle in running {
        drop(handle.join(rt));
    }
}

/// The report, once the shared book is closed.
fn closed<L: BookLedger, T: Threads, R: Drop>(
    rt: &T,
    shared: SharedBook<L>,
    fed: Fed<L, R>,
) -> Result<FeedReport<R>, FeedFault>
    requires shared { shared.seats ≤ vec_len fed.seats }
    requires seats { vec_len fed.seats ≤ max_files }
    requires refused { vec_len fed.refused ≤ max_files }
    ensures files { IfOk result (λ report. report.files ≡ fed.files) }
    ensures receipts { IfOk result (λ report. All (HasEntries report.book.state.history) fed.seats.items) }
    ensures entries { IfOk result (λ report. length report.book.state.history ≡ sum_by count_of fed.seats.items) }
    ensures own { IfOk result (λ report. report.book.setting ≡ L.setting) }
    ensures proved { IfOk result (λ report. IsProved report.book.setting report.book.state.history) }
    ensures crossing { IfOk result (λ report. IsFirstHeld fed.seats.items fed.refused.items report.crossing) }
    ensures whole { IfOk result (λ report. report.crossings_lost ≡ list_any (λ wagons. wagons.is_lost) fed.refused.items) }
    ensures notes { IfOk result (λ report. IfSome report.notes (AreNotesFor report.book)) }
    ensures lost { IfErr result (IsReceiptLost fed.seats.items) }
{
    let Fed {
        files,
        seats,
        refused,
    } = fed;
    let crossing = first_crossing(&seats, &refused);
    let crossings_lost = are_some_lost(&refused);
    match close_by_threads(rt, shared, seats) {
        Ok(noted) => {
            let (book, notes) = noted.into_parts();
            book.for_the_prover();
            Ok(FeedReport {
                files,
                book,
                crossing,
                crossings_lost,
                notes,
            })
        }
        Err(CloseFault::ReceiptLost(seat, entry, _, _)) => {
            Err(FeedFault::ReceiptLost(seat, entry))
        }
        Err(CloseFault::SeatsMissing(_, _)) => unreachable!(),
    }
}
