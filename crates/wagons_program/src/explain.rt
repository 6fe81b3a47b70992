//! The word `explain`.
ghost use Rattle.std.specs.Prelude.{◌≡◌, ◌++◌, ◌∷◌, if◌then◌else◌, IfErr, IfOk, None, OnOk, map, string_bytes};
ghost use Rattle.std.specs.List.{join_with_byte};
ghost use Rattle.line_engine.specs.Lines.{line_feed};
ghost use Rattle.wagons_program.specs.Explanation.{IsExplained, IsExplanation};
ghost use Rattle.wagons_program.specs.Streams.{IsUnprinted, streams};

use crate::printing::print_whole;
use crate::status::DONE;
use command_line::Explained;
use faults::manual_text;
use office_files::Stopped;
use std::alloc::{AllocError, Global};
use std::io::Write;

/// Prints entries of the manual of refusals, with an empty line between two, or the whole manual: status 0.
pub(crate) fn explain<O: Write>(
    alloc: Global,
    explained: &Explained,
    output: &mut O,
) -> Result<u8, Stopped>
    ensures ok { IfOk result (IsExplained explained.now (streams None (O.contents output.old) (O.contents output.new))) }
    ensures err { IfErr result (λ stopped. IsUnprinted (streams None (O.contents output.old) (O.contents output.new)) stopped.stop) }
{
    let text = explanation(alloc, explained)?;
    print_whole(output, &text)?;
    Ok(DONE)
}

/// The whole manual, or these entries.
fn explanation(alloc: Global, explained: &Explained) -> Result<String, AllocError>
    ensures { IfOk result (λ text. IsExplanation explained.now (string_bytes text)) }
{
    match explained {
        Explained::Manual => manual_text(alloc),
        Explained::Entries(entries) => joined(alloc, entries),
    }
}

/// Entries with an empty line between two.
fn joined(alloc: Global, entries: &[&str]) -> Result<String, AllocError>
    ensures { IfOk result (λ text. string_bytes text ≡ join_with_byte line_feed (map (λ entry. entry.now) entries.now)) }
{
    let mut text = String::new(alloc);
    for (index, entry) in entries.iter().enumerate() {
        push_entry(&mut text, index == 0, entry)?;
    }
    Ok(text)
}

/// Adds an entry, behind an empty line where it isn't the first.
fn push_entry(text: &mut String, is_first: bool, entry: &str) -> Result<(), AllocError>
    ensures { OnOk result (string_bytes text.new ≡ string_bytes text.old ++ (if is_first then entry.now else line_feed ∷ entry.now)) }
{
    if is_first {
        return text.push_str(entry);
    }
    text.push_str("\n")?;
    text.push_str(entry)
}
