//! Books that the tests start from.
ghost use Rattle.std.specs.Prelude.{◌≡◌, [], All, IfOk, IsTrue};
ghost use Rattle.price_checker.specs.Snap.{IsInRange};

use crate::{NETWORK, ROSTER};
use commit_book::{Book, Limits};
use cost_table::{Plan, Problem};
use fleet_rows::Roster;
use line_network::{Networks, read_lines, tables};
use std::alloc::Global;
use std::sync::Arc;
use std::test::Fail;

/// A book's roster and networks, and how many entries and problems it may have.
#[derive(Clone, Copy)]
pub struct Start<'a> {
    pub roster: &'a str,
    pub networks: &'a [&'a str],
    pub entries: u64,
    pub kept: u32,
}

/// The sample.
pub const SAMPLE: Start<'static> = Start {
    roster: ROSTER,
    networks: &[NETWORK],
    entries: 100_000,
    kept: 8,
};

/// The sample, with room for one entry.
pub const ONE_ENTRY: Start<'static> = Start {
    entries: 1,
    ..SAMPLE
};

/// The line from the second place to the third is longer than the sample's, and none leads from the first to the third.
pub const LONGER: &str =
    "from,to,km,minutes,way\nDE00001,DE00002,100,120,both\nDE00002,DE00003,70,80,both\n";

/// The sample, with a second network.
pub const BOTH: Start<'static> = Start {
    networks: &[NETWORK, LONGER],
    ..SAMPLE
};

/// The networks of these texts.
pub fn networks_of(alloc: Global, texts: &[&str]) -> Result<Networks, Fail> {
    let mut all = Vec::new(alloc);
    for text in texts {
        let network = read_lines(alloc, text.as_bytes())?;
        all.push(tables(alloc, &network)?)?;
    }
    Ok(Networks::new(all)?)
}

/// A book that starts so, without an entry.
pub fn book_of(alloc: Global, start: Start<'_>) -> Result<Book, Fail>
    ensures { IfOk result (λ book. book.state.history ≡ []) }
{
    let limits = Limits::new(start.entries, start.kept).ok_or("limits")?;
    let roster = Roster::read_rows(alloc, start.roster.as_bytes())?;
    let networks = Arc::new(alloc, networks_of(alloc, start.networks)?)?;
    Ok(Book::new(alloc, roster, networks, limits)?)
}

/// Whether the positions of a plan are a problem's.
pub fn is_in_range(problem: &Problem, plan: &Plan) -> bool
    ensures { IsTrue result → All (IsInRange problem.now) plan.now }
{
    let (wagons, orders) = (problem.wagons().len(), problem.orders().len());
    plan.pairs()
        .iter()
        .all(|pair| pair.0 < wagons && pair.1 < orders)
}
