//! Feeds from memory.
ghost use Rattle.std.specs.Prelude.{◌≡◌, ◌≤◌, [], All, IfOk, false, length, vec_len};
ghost use Rattle.line_engine.specs.Lines.{max_files};

use commit_book::{Book, Limits};
use fleet_rows::Roster;
use line_engine::Source;
use sessions::{FeedReport, feed};
use std::alloc::{AllocError, Global};
use std::sync::{Arc, Wait};
use std::test::Fail;
use std::thread::Threads;
use test_samples::{MemorySource, ROSTER, SAMPLE, networks_of};

/// The sample's book, without an entry.
fn sample_book(alloc: Global) -> Result<Book, Fail>
    ensures { IfOk result (λ book. book.state.history ≡ []) }
{
    let limits = Limits::new(SAMPLE.entries, SAMPLE.kept).ok_or("limits")?;
    let roster = Roster::read_rows(alloc, ROSTER.as_bytes())?;
    let networks = Arc::new(alloc, networks_of(alloc, SAMPLE.networks)?)?;
    Ok(Book::new(alloc, roster, networks, limits)?)
}

/// What comes of these readers at the sample's book.
pub(crate) fn fed<T: Threads + Wait + Sync, R: Source + Send + Drop>(
    rt: &T,
    alloc: Global,
    readers: Vec<R>,
) -> Result<FeedReport<R>, Fail>
    requires some { 1 ≤ vec_len readers }
    requires few { vec_len readers ≤ max_files }
    requires fresh { All (λ reader. R.has_failed reader ≡ false) readers.items }
{
    let book = sample_book(alloc)?;
    Ok(feed(rt, alloc, readers, book)?)
}

/// Readers of these texts, each in one piece.
pub(crate) fn readers_of<'a>(
    alloc: Global,
    texts: &[&'a str],
) -> Result<Vec<MemorySource<'a>>, AllocError>
    ensures count { IfOk result (λ readers. vec_len readers ≡ length texts.now) }
    ensures fresh { IfOk result (λ readers. All (λ reader. ⟦<MemorySource<'a> as Source>⟧.has_failed reader ≡ false) readers.items) }
{
    let mut readers = Vec::new(alloc);
    for text in texts {
        readers.push(MemorySource::new(text.as_bytes(), usize::MAX))?;
    }
    Ok(readers)
}

/// What comes of these texts, 1 to 16, at the sample's book.
pub(crate) fn fed_texts<'a, T: Threads + Wait + Sync>(
    rt: &T,
    alloc: Global,
    texts: &[&'a str],
) -> Result<FeedReport<MemorySource<'a>>, Fail>
    requires some { 1 ≤ length texts.now }
    requires few { length texts.now ≤ max_files }
{
    fed(rt, alloc, readers_of(alloc, texts)?)
}

/// How many lines of all files were accepted, repeated and refused.
pub(crate) fn totals<R>(report: &FeedReport<R>) -> (u64, u64, u64) {
    let (mut accepted, mut repeated, mut refused) = (0u64, 0u64, 0u64);
    for file in &report.files {
        accepted = accepted.saturating_add(file.accepted);
        repeated = repeated.saturating_add(file.repeated);
        refused = refused.saturating_add(file.refused);
    }
    (accepted, repeated, refused)
}
