//! One file's lines, brought to a seat.
ghost use Rattle.std.specs.Prelude.{◌≡◌, false};
ghost use Rattle.sessions.specs.Seat.{count_of};
ghost use Rattle.sessions.specs.inner.Fed.{IsFedFile, stop_number};

use crate::feed_lines::{FeedLines, FileLines};
use crate::file_seat::FileSeat;
use crate::refused_wagons::RefusedWagons;
use crate::{BookLedger, Seat, SharedBook};
use line_engine::{LineLimit, NoReplies, RunCount, RunFault, Source, run_replies};
use line_network::Networks;
use std::alloc::Global;
use std::collections::VecDeque;
use std::snapshot::Snapshot;
use std::sync::Wait;
use std::thread::Promise;

/// A file whose lines were brought to its seat.
#[derive(Drop)]
pub(crate) struct FedFile<L: BookLedger, R> {
    pub(crate) seat: Seat<L>,
    pub(crate) repeated: u64,
    pub(crate) refused: u64,
    pub(crate) out_of_step: RefusedWagons,
    pub(crate) failed: Option<u32>,
    pub(crate) reader: R,
}

/// What a file's thread is given: the file's reader before its first line.
#[derive(Drop)]
pub(crate) struct FileOf<R> {
    pub(crate) reader: Snapshot<R>,
}

impl<L: BookLedger, R: Source> Promise<FedFile<L, R>> for FileOf<R> {
    ghost use Rattle.sessions.specs.inner.Fed.{IsFedFile};

    ghost kept_by = { λ before file. IsFedFile L.setting R.remaining R.has_failed before.reader.value file };
}

/// The number of what stopped a run before its reader's end.
fn stop_of(run: Result<RunCount, RunFault>) -> Option<u32>
    ensures { result ≡ stop_number run }
{
    match run {
        Ok(_) => None,
        Err(fault) => Some(fault.number()),
    }
}

/// Brings the lines of a reader to a new seat, up to the reader's end or to what stops it.
pub(crate) fn fed_file<'a, W: Wait, L: BookLedger, R: Source>(
    rt: &'a W,
    alloc: Global,
    shared: &'a SharedBook<L>,
    networks: &'a Networks,
    seat: Seat<L>,
    reader: R,
) -> FedFile<L, R>
    requires fresh { R.has_failed reader ≡ false }
    requires new { count_of seat ≡ 0 }
    requires over { networks.now ≡ L.setting.networks }
    ensures { IsFedFile L.setting R.remaining R.has_failed reader result }
{
    let mut reader = reader;
    let file = FileSeat {
        networks,
        seat,
        repeated: 0,
        refused: 0,
        out_of_step: RefusedWagons::none(alloc),
    };
    let mut lines = FileLines {
        file,
        pending: VecDeque::new(alloc),
        number: 0,
    };
    let bring = FeedLines { rt, shared };
    let limit = LineLimit::standard();
    let run = run_replies(
        alloc,
        limit,
        &mut reader,
        &mut NoReplies,
        &bring,
        &mut lines,
    );
    let failed = stop_of(run);
    bring.submit_pending(alloc, &mut lines);
    let FileLines {
        file,
        pending: _,
        number: _,
    } = lines;
    let FileSeat {
        networks: _,
        seat,
        repeated,
        refused,
        out_of_step,
    } = file;
    FedFile {
        seat,
        repeated,
        refused,
        out_of_step,
        failed,
        reader,
    }
}
