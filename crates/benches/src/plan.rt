//! The word `plan`.

use crate::words::number;
use anyhow::{Context, Result};
use assignment::{certified_plan, plan};
use cost_table::Cells;
use std::alloc::Global;
use std::io;
use std::time::Instant;
use table_lines::read_table_line;

/// Times how long planning takes: `plan TIMES` reads a table line from standard input and plans its table so many times.
/// The plan's cost in kilometres goes to standard output, and the least time to standard error, in microseconds.
pub(crate) fn time_plan(rt: &HostRuntime, words: &[String]) -> Result<()> {
    let times = number(words, 2)?;
    let text = io::read_to_string(rt.alloc(), rt.stdin())?;
    let cells = table(rt.alloc(), &text)?;
    let mut least = u128::MAX;
    for _ in 0..times {
        let start = Instant::now(rt)?;
        let made = plan(rt.alloc(), &cells)?;
        least = least.min(start.elapsed(rt)?.as_micros());
        drop(made);
    }
    let (_plan, _prices, certified) = certified_plan(rt.alloc(), &cells)?;
    println!(rt; "{}", certified.cost())?;
    eprintln!(rt; "{least}")?;
    Ok(())
}

/// The table of a line.
fn table(alloc: Global, text: &str) -> Result<Cells> {
    let line = read_table_line(alloc, text.as_bytes())?;
    let lacks = line.lacks.as_ref().context("lacks are wanted")?;
    Ok(Cells::from_rows(alloc, &line.cells, &line.penalties, lacks)?)
}
