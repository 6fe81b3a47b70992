//! A book that has the snapshots of its problems.
ghost use Rattle.std.specs.Prelude.{◌≡◌, ◌≤◌, [], IfOk, OnErr, length, true};
ghost use Rattle.commit_book.specs.BookStep.{IsCall, is_kept};
ghost use Rattle.commit_book.specs.Books.{answer_of};
ghost use Rattle.commit_book.specs.declared.call.Call.TheVariants as call;
ghost use Rattle.line_plans.specs.PlanLines.{BringsBegin};
ghost use Rattle.line_plans.specs.Plans.{IsPlanAt, snap_at, which_of};
ghost use Rattle.std.specs.Prelude.{Some};

use crate::problem_key::ProblemKey;
use crate::snapshots::{copy_of, find_snap, remember};
use commit_book::{BegunProblem, Book, Limits, Refusal, Reply, Snap};
use move_messages::Event;
use rail_codes::Moment;
use std::alloc::{AllocError, Global};
use std::marker::Model;
use std::sync::Arc;

/// A book, and the snapshot of each problem that it keeps, in the same order. A contract sees the book.
#[derive(Drop)]
pub(crate) struct SnapshotBook {
    book: Book,
    limits: Limits,
    snaps: Vec<Snap>,
}

impl Model for SnapshotBook {
    ghost use Rattle.commit_book.specs.Books.{BookValue};
    ghost use Rattle.line_plans.specs.inner.Remembered.{IsSnapshotBook};

    ghost Value = { BookValue };

    ghost view = { λ b. b.book };

    ghost invariant = { λ b. IsSnapshotBook b.book b.limits b.snaps.items };
}

impl SnapshotBook {
    /// A book of these limits that keeps no problem yet.
    pub(crate) fn new(alloc: Global, book: Book, limits: Limits) -> SnapshotBook
        requires limits { limits.kept ≡ book.setting.kept }
        requires empty { book.state.kept ≡ [] }
        ensures { result ≡ book }
    {
        SnapshotBook {
            book,
            limits,
            snaps: Vec::new(alloc),
        }
    }

    /// The book.
    pub(crate) fn into_book(self) -> Book
        ensures { result ≡ self }
    {
        self.book
    }

    /// Takes an event in, as the book does.
    pub(crate) fn submit(&mut self, alloc: Global, event: Event) -> Result<Reply, Refusal>
        ensures call { IsCall self.old.setting self.old.state (call.Event event) (answer_of result) self.new.state }
        ensures setting { self.new.setting ≡ self.old.setting }
    {
        self.book.submit(alloc, event)
    }

    /// Keeps the problem of the present version at a moment, as the book does: which problem that is. `Err` only when out of
    /// memory; nothing has changed then.
    pub(crate) fn begin(&mut self, alloc: Global, at: Moment) -> Result<ProblemKey, AllocError>
        ensures begun { IfOk result (λ key. BringsBegin self.old at (Some key) self.new) }
        ensures kept { IfOk result (λ key. is_kept self.new.state.kept (which_of key) ≡ true) }
        ensures unchanged { OnErr result (self.new ≡ self.old) }
    {
        self.snaps.reserve(1)?;
        let snap = self.book.begin(alloc, at)?;
        let key = ProblemKey::of(&snap);
        remember(&mut self.snaps, self.limits.kept() as usize, snap);
        Ok(key)
    }

    /// A kept problem with its table. `Err` only when out of memory.
    pub(crate) fn plan(
        &mut self,
        alloc: Global,
        key: ProblemKey,
    ) -> Result<BegunProblem, AllocError>
        requires { is_kept self.old.state.kept (which_of key) ≡ true }
        ensures plan { IfOk result (IsPlanAt self.old key) }
        ensures book { self.new ≡ self.old }
    {
        let snap = self.snap(key)?;
        let table = self.book.kept_table(alloc, key.version, key.at)?.unwrap();
        let networks = Arc::try_clone(self.book.networks())?;
        Ok(BegunProblem::new(snap, table, networks))
    }

    /// The snapshot of a kept problem, of a version that the book has had.
    fn snap(&self, key: ProblemKey) -> Result<Snap, AllocError>
        requires { is_kept self.now.state.kept (which_of key) ≡ true }
        ensures had { key.version ≤ length self.now.state.history }
        ensures snap { IfOk result (λ snap. snap ≡ snap_at self.now.setting self.now.state.history key.version key.at) }
    {
        copy_of(find_snap(&self.snaps, key).unwrap())
    }
}
