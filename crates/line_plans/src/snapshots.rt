//! Snapshots of kept problems.
ghost use Rattle.std.specs.Prelude.{◌≡◌, ◌<◌, ◌≤◌, IfOk, option_copied, vec_capacity, vec_len};
ghost use Rattle.line_plans.specs.Plans.{which_of};
ghost use Rattle.line_plans.specs.inner.Remembered.{found_of, pushed, with_snap};

use crate::problem_key::ProblemKey;
use commit_book::Snap;
use std::alloc::AllocError;

/// The first of some snapshots that is of a problem.
pub(crate) fn find_snap(snaps: &[Snap], key: ProblemKey) -> Option<&Snap>
    ensures { option_copied result ≡ found_of snaps.now (which_of key) }
{
    snaps.iter().find(|snap| key.is_of(snap))
}

/// The same snapshot once more, which shares its lists. `Err` only when out of memory.
pub(crate) fn copy_of(snap: &Snap) -> Result<Snap, AllocError>
    ensures { IfOk result (λ copy. copy ≡ snap.now) }
{
    let problem = snap.problem().copy()?;
    Ok(Snap::of(snap.version(), snap.network(), problem))
}

/// Adds a snapshot as the last one, unless one of its problem is among them. Where there are as many as may be, the first makes
/// room.
pub(crate) fn remember(snaps: &mut Vec<Snap>, most: usize, snap: Snap)
    requires most { 1 ≤ most }
    requires room { vec_len snaps.old < vec_capacity snaps.old }
    ensures { snaps.new.items ≡ with_snap most snaps.old.items snap }
{
    if find_snap(snaps, ProblemKey::of(&snap)).is_none() {
        push(snaps, most, snap);
    }
}

/// Adds a snapshot as the last one. Where there are as many as may be, the first makes room.
fn push(snaps: &mut Vec<Snap>, most: usize, snap: Snap)
    requires most { 1 ≤ most }
    requires room { vec_len snaps.old < vec_capacity snaps.old }
    ensures { snaps.new.items ≡ pushed most snaps.old.items snap }
{
    if most <= snaps.len() {
        snaps.remove(0);
    }
    snaps.push_reserved(snap);
}
