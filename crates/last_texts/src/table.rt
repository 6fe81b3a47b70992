//! The problem of a book's last version, as a table line.
ghost use Rattle.std.specs.Prelude.{◌≡◌, ◌++◌, ◌∷◌, [], IfErr, IfOk, string_bytes};
ghost use Rattle.last_texts.specs.TableOfLast.{IsTableTextOfLast};
ghost use Rattle.office_files.specs.declared.stop.Stop.TheVariants.{OutOfMemory};

use commit_book::Book;
use office_files::Stop;
use rail_codes::Moment;
use std::alloc::{AllocError, Global};
use table_lines::problem_line;

/// The table line of the problem of a book's last version at a moment, and its line feed. Refused only with `OutOfMemory` (1).
/// The problem is kept by the book, as a begin keeps it.
pub fn last_table(alloc: Global, book: &mut Book, at: Moment) -> Result<String, Stop>
    ensures table { IfOk result (λ text. IsTableTextOfLast book.old.setting book.old.state.history at (string_bytes text)) }
    ensures refused { IfErr result (λ why. why ≡ OutOfMemory) }
{
    let begun = book.begin_with_table(alloc, at)?;
    let line = problem_line(alloc, begun.snap().problem(), begun.cells())?;
    Ok(with_line_feed(line)?)
}

/// A line with its line feed.
fn with_line_feed(line: String) -> Result<String, AllocError>
    ensures { IfOk result (λ text. string_bytes text ≡ string_bytes line ++ 10 ∷ []) }
{
    let mut text = line;
    text.push_str("\n")?;
    Ok(text)
}
