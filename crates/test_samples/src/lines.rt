//! Command lines of the worked examples, all of 1 March 2026.

use crate::{FAR, NEAR};
use commit_book::Call;
use line_fields::{Command, read_line};
use std::alloc::{AllocError, Global};
use std::test::Fail;

/// A command line, by its fields. Times are as `01:30:00`; lists are as they stand in the line.
#[derive(Clone, Copy)]
pub enum Line<'a> {
    /// A line as it is.
    Text(&'a str),
    /// A message of company 0080: its type, number, wagon, place and time.
    Tell(&'a str, u32, &'a str, &'a str, &'a str),
    /// An exception of company 0080: its number, wagon, place and time, and whether the wagon is held.
    Hold(u32, &'a str, &'a str, &'a str, bool),
    /// An order at DE00003 of `Eanos`, 50,000 kg a wagon: its name, latest time, penalty and wagons.
    Order(&'a str, &'a str, u32, u32),
    /// The name of an order that is withdrawn.
    Withdraw(&'a str),
    /// The network that is to be in force.
    Revise(u32),
    /// The time of a problem.
    Begin(&'a str),
    /// A commit at one o'clock: its version, pairs, wagons' prices and orders' prices.
    Commit(u64, &'a [(&'a str, &'a str)], &'a [u64], &'a [u64]),
}

/// The sample's order, for one wagon at DE00003.
pub const ORDER: Line<'static> = Line::Order("O1", "04:00:00", 1_000, 1);

pub const WITHDRAWAL: Line<'static> = Line::Withdraw("O1");

pub const REVISION: Line<'static> = Line::Revise(2);

pub const BEGIN: Line<'static> = Line::Begin("01:00:00");

/// The pair of the nearer wagon and the sample's order.
pub const NEAREST: &[(&str, &str)] = &[(NEAR, "O1")];

/// The pair of the other wagon and the sample's order.
pub const FARTHER: &[(&str, &str)] = &[(FAR, "O1")];

/// The nearest wagon is to serve the sample's order, as version 1 has it.
pub const COMMIT: Line<'static> = Line::Commit(1, NEAREST, &[0, 0], &[50]);

/// The other wagon departs where it stands.
pub const DEPARTURE: Line<'static> = Line::Tell("departure", 1, FAR, "DE00001", "02:00:00");

/// The id of the sample's departure, with another place.
pub const OTHER_PLACE: Line<'static> = Line::Tell("departure", 1, FAR, "DE00002", "02:00:00");

impl Line<'_> {
    /// The line's text.
    pub fn text(self, alloc: Global) -> Result<String, AllocError> {
        match self {
            Line::Text(text) => String::from_str(alloc, text),
            Line::Tell(kind, number, wagon, place, time) => {
                message_text(alloc, kind, number, wagon, place, time, "")
            }
            Line::Hold(number, wagon, place, time, hold) => {
                let end = if hold {
                    r#","hold":true"#
                } else {
                    r#","hold":false"#
                };
                message_text(alloc, "exception", number, wagon, place, time, end)
            }
            Line::Order(name, latest, penalty, wagons) => format!(in alloc;
                r#"{{"type":"order","order":"{name}","place":"DE00003","classes":["Eanos"],"load":50000,"latest":"2026-03-01T{latest}Z","penalty":{penalty},"wagons":{wagons}}}"#
            ),
            Line::Withdraw(name) => format!(in alloc; r#"{{"type":"withdraw","order":"{name}"}}"#),
            Line::Revise(network) => format!(in alloc;
                r#"{{"type":"network","revision":{network}}}"#
            ),
            Line::Begin(time) => format!(in alloc;
                r#"{{"type":"begin","at":"2026-03-01T{time}Z"}}"#
            ),
            Line::Commit(version, pairs, u, v) => commit_text(alloc, version, pairs, u, v),
        }
    }
}

/// The text of a message, with further members at its end.
fn message_text(
    alloc: Global,
    kind: &str,
    number: u32,
    wagon: &str,
    place: &str,
    time: &str,
    end: &str,
) -> Result<String, AllocError> {
    format!(in alloc;
        r#"{{"type":"{kind}","company":"0080","number":{number},"wagon":"{wagon}","place":"{place}","moment":"2026-03-01T{time}Z"{end}}}"#
    )
}

fn commit_text(
    alloc: Global,
    version: u64,
    pairs: &[(&str, &str)],
    u: &[u64],
    v: &[u64],
) -> Result<String, AllocError> {
    let mut names = Vec::new(alloc);
    for (wagon, order) in pairs {
        names.push(format!(in alloc; r#"["{wagon}","{order}"]"#)?)?;
    }
    let pairs = names.as_slice().join(alloc, ",")?;
    let (u, v) = (prices_text(alloc, u)?, prices_text(alloc, v)?);
    format!(in alloc;
        r#"{{"type":"commit","version":{version},"at":"2026-03-01T01:00:00Z","pairs":[{pairs}],"u":[{u}],"v":[{v}]}}"#
    )
}

/// Prices, with commas between them.
fn prices_text(alloc: Global, prices: &[u64]) -> Result<String, AllocError> {
    let mut texts = Vec::new(alloc);
    for price in prices {
        texts.push(format!(in alloc; "{price}")?)?;
    }
    texts.as_slice().join(alloc, ",")
}

/// The lines' texts, each with a line feed.
pub fn script(alloc: Global, lines: &[Line<'_>]) -> Result<String, AllocError> {
    let mut script = String::new(alloc);
    for line in lines {
        script.push_str(&line.text(alloc)?)?;
        script.push_str("\n")?;
    }
    Ok(script)
}

/// The call of a book that a line asks for.
pub fn call(alloc: Global, line: Line<'_>) -> Result<Call, Fail> {
    let text = line.text(alloc)?;
    match read_line(alloc, text.as_bytes())? {
        Command::Event(event) => Ok(Call::Event(event)),
        Command::Begin(at) => Ok(Call::Begin(at)),
        Command::Plan(_) | Command::Sheet => Err(Fail::new("no call of a book")),
    }
}
