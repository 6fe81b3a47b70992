//! The manual: one entry of it, and all.
ghost use Rattle.std.specs.Prelude.{◌≡◌, IfOk, IfSome, is_some, string_bytes};
ghost use Rattle.faults.specs.Manual.{IsEntryFor, IsManual};
ghost use Rattle.faults.specs.RefusalNumbers.{is_refusal_number};

use crate::entries::entries;
use std::alloc::{AllocError, Global};

/// What stands above the entries.
const ABOVE: &str = "# Refusals

Each refusal has a number. A reply has it after the line's number, as
`20 refused 25 wagon 12`, and standard error after the program's name, as
`wagons: 41 17`. Where an entry doesn't say otherwise, nothing has changed. The
manual of lines, replies and files is FORMATS.md.

`wagons explain` prints this page, and `wagons explain 25` one entry of it. What
is said of `run` holds too of `map`, `moves`, `fleet`, `orders`, `trace`,
`plan`, `table`, `why`, `review` and `save`, which print no replies.
";

/// The manual's entry of a refusal number; none where no refusal has this number. It is Markdown, in lines of at most 80
/// columns: a heading of number and name, what is wrong, and an item each for where it comes (in which words of the
/// program, to which lines or files), its usual cause, and what to do about it.
pub fn entry_text(number: u32) -> Option<&'static str>
    ensures known { is_some result ≡ is_refusal_number number }
    ensures named { IfSome result (λ entry. IsEntryFor number entry.now) }
{
    let entries = entries();
    let (_, text) = entries.iter().find(|(known, _)| number == *known)?;
    Some(text)
}

/// The whole manual as Markdown, in lines of at most 80 columns: a heading, and the entry of each refusal number,
/// ascending. `Err` only when out of memory.
pub fn manual_text(alloc: Global) -> Result<String, AllocError>
    ensures { IfOk result (λ text. IsManual (string_bytes text)) }
{
    let mut text = String::from_str(alloc, ABOVE)?;
    let entries = entries();
    for (_, entry) in &entries {
        text.push_str("\n")?;
        text.push_str(entry)?;
    }
    Ok(text)
}
