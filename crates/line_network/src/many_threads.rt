//! The tables of a network, made by several workers.
ghost use Rattle.std.specs.Prelude.{◌≡◌, ◌≢◌, ◌+◌, ◌<◌, ◌≤◌, ◌↔◌, ℕ, All, IfErr, IfOk, IsErrOf, length, slice_index_or, vec_len};
ghost use Rattle.line_network.specs.Workers.{IsBadWorkerCount};
ghost use Rattle.line_network.specs.inner.Rows.{AreRows};
ghost use Rattle.line_network.specs.inner.Shares.{AreShares, IsShare, IsWork, put_rows, share_of};

use crate::length::Length;
use crate::lines_by_origin::{LinesByOrigin, turned_lines};
use crate::share::{Answer, OriginRow, Share, Work};
use crate::{Gate, Network, Tables, WorkFault};
use std::alloc::{AllocError, Global};
use std::sync::Wait;
use std::thread;
use std::thread::{PromisedHandle, Scope, Threads};

/// The most workers.
pub const MAX_WORKERS: usize = 64;

/// A worker that runs.
type Running<'a> = PromisedHandle<Answer, Share<'a>>;

/// The distances between the places of a network, made by 1 to 64 workers, each in a thread of its own: the
/// tables that `tables` makes. The walks to the place of number k go to worker k mod `workers`, which calls
/// `gate.enter(k)` once before its work.
///
/// Refused with `BadWorkerCount` (45) exactly where `workers` is not 1 to 64; else with `NoThread` (46) where no
/// thread could be started for a worker, however much memory there is, and with `OutOfMemory` (1) where the program
/// was out of memory; both after all workers that ran are joined.
pub fn tables_by_workers<R: Threads + Wait, G: Gate + Sync>(
    rt: &R,
    alloc: Global,
    net: &Network,
    workers: usize,
    gate: &G,
) -> Result<Tables, WorkFault>
    ensures tables { IfOk result (λ tables. tables ≡ net.now) }
    ensures count { IsErrOf result WorkFault.BadWorkerCount ↔ IsBadWorkerCount workers }
{
    if workers < 1 || workers > MAX_WORKERS {
        return Err(WorkFault::BadWorkerCount);
    }
    let places = net.places();
    let lines = LinesByOrigin::new(alloc, turned_lines(alloc, net.lines())?, places)?;
    let answers = answers_of_workers(rt, alloc, &lines, places, workers, gate)?;
    let work = Work {
        lines: &lines,
        places,
        workers,
    };
    let rows = rows_of_answers(alloc, work, answers)?;
    let network = net.copy(alloc)?;
    Ok(Tables { network, rows })
}

/// The answers of all workers, each of which runs in a thread of its own and has ended.
fn answers_of_workers<R: Threads + Wait, G: Gate + Sync>(
    rt: &R,
    alloc: Global,
    lines: &LinesByOrigin,
    places: usize,
    workers: usize,
    gate: &G,
) -> Result<Vec<Answer>, WorkFault>
    requires { IsWork lines.now.lines.items lines.now.starts.items places workers }
    ensures answers { IfOk result (λ answers. AreShares lines.now.lines.items places workers answers.items) }
    ensures fault { IfErr result (λ fault. fault ≢ WorkFault.BadWorkerCount) }
{
    thread::scope(
        thread::scope_env(),
        rt,
        |scope| -> Result<Vec<Answer>, WorkFault>
            requires { IsWork lines.now.lines.items lines.now.starts.items places workers }
            ensures answers { IfOk result (λ answers. AreShares lines.entry.now.lines.items places workers answers.items) }
            ensures fault { IfErr result (λ fault. fault ≢ WorkFault.BadWorkerCount) }
        {
            let work = Work {
                lines,
                places,
                workers,
            };
            let running = started(scope, alloc, work, gate)?;
            joined(rt, work, running)
        },
    )
}

/// The workers, up to the first that no thread could be started for.
fn started<'s, 'e: 's, G: Gate + Sync>(
    scope: &'s Scope<'s, &'e ()>,
    alloc: Global,
    work: Work<'e>,
    gate: &'e G,
) -> Result<Vec<Running<'e>>, AllocError>
    requires { IsWork work.lines.now.lines.items work.lines.now.starts.items work.places work.workers }
    ensures own { IfOk result (λ made. (k : ℕ) (d : _) → k < vec_len made → (slice_index_or made.items k d).promise ≡ share_of work.entry k) }
    ensures few { IfOk result (λ running. vec_len running ≤ work.entry.workers) }
{
    let mut running = Vec::with_capacity(alloc, work.workers)?;
    for worker in 0..work.workers {
        let share = Share { work, worker };
        let work_of_share = move || -> Answer
            requires { IsWork share.work.lines.now.lines.items share.work.lines.now.starts.items share.work.places share.work.workers }
            ensures { IfOk result (λ rows. IsShare share.entry.work.lines.now.lines.items share.entry.work.places share.entry.work.workers share.entry.worker rows.items) }
        { share.rows(alloc, gate) };
        match scope.spawn_with(share, work_of_share) {
            Ok(handle) => running.push_reserved(handle),
            Err(_) => break,
        }
    }
    Ok(running)
}

/// The answers of the workers, who are all joined. Refused with `NoThread` exactly where one was not started, before
/// any memory is needed.
fn joined<'e, R: Threads>(
    rt: &R,
    work: Work<'e>,
    running: Vec<Running<'e>>,
) -> Result<Vec<Answer>, WorkFault>
    requires own { (k : ℕ) (d : _) → k < vec_len running → (slice_index_or running.items k d).promise ≡ record { work = work; worker = k } }
    requires few { vec_len running ≤ work.workers }
    ensures answers { IfOk result (λ answers. AreShares work.entry.lines.now.lines.items work.entry.places work.entry.workers answers.items) }
    ensures fault { IfErr result (λ fault. fault ≢ WorkFault.BadWorkerCount) }
    ensures no_thread { IsErrOf result WorkFault.NoThread ↔ (vec_len running.entry < work.entry.workers) }
{
    if running.len() < work.workers {
        drop_answers(rt, running);
        return Err(WorkFault::NoThread);
    }
    match thread::join_promised(rt, running) {
        Ok(answers) => Ok(answers),
        Err(refused) => {
            drop_answers(rt, refused.value);
            Err(WorkFault::OutOfMemory)
        }
    }
}

/// Waits for workers whose answers are no longer needed.
fn drop_answers<R: Threads>(rt: &R, running: Vec<Running<'_>>) {
    for worker in running {
        drop(worker.join(rt));
    }
}

/// The rows of all places, each put where its origin says.
fn rows_of_answers(
    alloc: Global,
    work: Work<'_>,
    answers: Vec<Answer>,
) -> Result<Vec<Vec<Length>>, AllocError>
    requires shares { AreShares work.lines.now.lines.items work.places work.workers answers.items }
    requires some { 0 < work.workers }
    ensures { IfOk result (λ rows. AreRows work.entry.lines.now.lines.items work.entry.places rows.items) }
{
    let mut rows = no_rows(alloc, work.places)?;
    for answer in answers {
        match answer {
            Ok(share) => put_rows(&mut rows, share),
            Err(refused) => return Err(refused),
        }
    }
    Ok(rows)
}

/// A row for each place, with nothing in it yet.
fn no_rows(alloc: Global, places: usize) -> Result<Vec<Vec<Length>>, AllocError>
    ensures { IfOk result (λ rows. vec_len rows ≡ places) }
{
    let mut rows = Vec::with_capacity(alloc, places)?;
    for _ in 0..places {
        rows.push(Vec::new(alloc))?;
    }
    Ok(rows)
}

/// Puts the rows of a worker in their places.
fn put_rows(rows: &mut [Vec<Length>], share: Vec<OriginRow>)
    requires { All (λ r. r.origin < length rows.old) share.items }
    ensures { rows.new ≡ put_rows rows.old share.items }
{
    for OriginRow { origin, row } in share {
        rows[origin] = row;
    }
}
