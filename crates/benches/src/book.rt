//! The word `book`.

use crate::growth::Growth;
use crate::rounds::round;
use crate::times::{KINDS, write_times};
use crate::words::number;
use anyhow::Result;
use std::alloc::Global;

/// What the words ask for.
#[derive(Clone, Copy, Debug, PartialEq, Eq)]
struct Sizes {
    entries: u32,
    wagons: u32,
    waiting: u32,
    rounds: u32,
}

/// Times the calls of a book behind a long history: `book ENTRIES WAGONS WAITING ROUNDS` makes a book of so many free
/// wagons, in which so many orders wait that none of them suits. It lets its history grow to so many entries by
/// exceptions, orders and withdrawals (or three fewer), and times so many rounds of calls over the last of them. Standard
/// output gets the entries, and the wagons and orders of the last problem; standard error a line for each kind of call,
/// with its median time and its worst, in nanoseconds.
pub(crate) fn time_book(rt: &HostRuntime, words: &[String]) -> Result<()> {
    let sizes = read_sizes(words)?;
    let mut growth = grown(rt.alloc(), sizes)?;
    let times = timed(rt, rt.alloc(), &mut growth, sizes.rounds)?;
    print_problem(rt, rt.alloc(), &mut growth)?;
    write_times(rt, rt.alloc(), &times)
}

/// What the program's words ask for.
fn read_sizes(words: &[String]) -> Result<Sizes> {
    Ok(Sizes {
        entries: number(words, 2)?,
        wagons: number(words, 3)?,
        waiting: number(words, 4)?,
        rounds: number(words, 5)?,
    })
}

/// A book with its history, up to the rounds that are timed.
fn grown(alloc: Global, sizes: Sizes) -> Result<Growth> {
    let mut growth = Growth::new(alloc, sizes.wagons)?;
    growth.let_wait(alloc, sizes.waiting)?;
    growth.fill(alloc, sizes.entries, sizes.rounds)?;
    Ok(growth)
}

/// The times of so many rounds.
fn timed(
    rt: &HostRuntime,
    alloc: Global,
    growth: &mut Growth,
    rounds: u32,
) -> Result<Vec<[u128; KINDS]>> {
    let mut times = Vec::new(alloc);
    for _ in 0..rounds {
        times.push(round(rt, alloc, growth)?)?;
    }
    Ok(times)
}

/// Prints how many entries there are, and how many wagons and orders the last problem has.
fn print_problem(rt: &HostRuntime, alloc: Global, growth: &mut Growth) -> Result<()> {
    let (free, lacking) = growth.last_problem(alloc)?;
    println!(rt; "{} {free} {lacking}", growth.entries())?;
    Ok(())
}
