//! The problems that a book keeps.
ghost use Rattle.std.specs.Prelude.{◌≡◌, ◌≤◌, IfOk, IfSome, OnErr, OnOk, Some, length, option_map, position, slice_get};
ghost use Rattle.std.specs.List.{find};
ghost use Rattle.commit_book.specs.BookStep.{is_this};
ghost use Rattle.commit_book.specs.inner.Kept.{HaveFewerTables, HaveTwoTables, IsLastOther, IsMadeIn, is_covering, which_of, with_kept};

use crate::ascending_problem::AscendingProblem;
use crate::made_problem::MadeProblem;
use rail_codes::Moment;
use std::alloc::AllocError;
use std::sync::Arc;

/// A kept problem: that of a version at its moment.
#[derive(Drop)]
pub(crate) struct KeptProblem {
    pub version: u64,
    /// The network in force in the version, counted from 1.
    pub network: u32,
    pub problem: AscendingProblem,
    /// What has its table, once that was made.
    pub made: Option<Arc<MadeProblem>>,
}

impl KeptProblem {
    /// Whether this is the problem of a version at a moment.
    fn is_of(&self, version: u64, at: Moment) -> bool
        ensures { result ≡ is_this (version, at) (which_of self.now) }
    {
        self.version == version && self.problem.at() == at
    }

    /// Whether this is a problem of a version whose table was made, and is that of this moment too.
    fn is_covering(&self, version: u64, at: Moment) -> bool
        ensures { result ≡ is_covering version at self.now }
    {
        match &self.made {
            Some(made) => self.version == version && made.covers(at),
            None => false,
        }
    }
}

/// The index of the problem of a version at a moment, where it is kept.
pub(crate) fn index_of_kept(kept: &[KeptProblem], version: u64, at: Moment) -> Option<usize>
    ensures { result ≡ position (λ one. is_this (version, at) (which_of one)) kept.now }
{
    kept.iter().position(|one| one.is_of(version, at))
}

/// A kept problem of a version whose table was made, and is that of this moment too, where there is one.
pub(crate) fn find_covering(kept: &[KeptProblem], version: u64, at: Moment) -> Option<&KeptProblem>
    ensures { option_map (λ one. one.now) result ≡ find (is_covering version at) kept.now }
{
    kept.iter().find(|one| one.is_covering(version, at))
}

/// What was made last of the kept problems.
pub(crate) fn last_made(kept: &[KeptProblem]) -> Option<&Arc<MadeProblem>>
    ensures { IfSome result (λ made. IsMadeIn kept.now made.now.value) }
{
    for behind in 0..kept.len() {
        if let Some(made) = &kept[kept.len() - 1 - behind].made {
            return Some(made);
        }
    }
    None
}

/// The index of the last kept problem that has a table, but for one index; that index where no other has one.
fn last_other(kept: &[KeptProblem], index: usize) -> usize
    ensures { IsLastOther kept.now index result }
{
    for behind in 0..kept.len() {
        let k = kept.len() - 1 - behind;
        if k != index && kept[k].made.is_some() {
            return k;
        }
    }
    index
}

/// Forgets the tables of kept problems, but that of the problem at an index and the last one of the others. A table takes up
/// to 8 MB, half of it in a block that tables share, and is made again where a commit asks for it.
pub(crate) fn forget_tables(kept: &mut [KeptProblem], index: usize)
    ensures fewer { HaveFewerTables kept.old kept.new }
    ensures few { HaveTwoTables kept.old kept.new index }
{
    let other = last_other(kept, index);
    for k in 0..kept.len() {
        if k != index && k != other {
            kept[k].made = None;
        }
    }
}

/// Keeps one more problem, as the last one, and gives its index. Where there are as many as may be, the first makes room.
/// Where memory is refused, nothing changes.
pub(crate) fn keep(
    kept: &mut Vec<KeptProblem>,
    most: usize,
    one: KeptProblem,
) -> Result<usize, AllocError>
    requires { 1 ≤ most }
    ensures kept { OnOk result (kept.new.items ≡ with_kept most kept.old.items one) }
    ensures index { IfOk result (λ index. slice_get kept.new.items index ≡ Some one) }
    ensures unchanged { OnErr result (kept.new.items ≡ kept.old.items) }
{
    if kept.len() < most {
        kept.push(one)?;
    } else {
        kept.remove(0);
        kept.push(one).unwrap();
    }
    Ok(kept.len() - 1)
}
