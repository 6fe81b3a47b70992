//! Texts on the output.
ghost use Rattle.std.specs.Prelude.{◌≡◌, ◌⊎◌, Err, IfErr, IfOk, IsOkAnd, None, OnOk, string_bytes};
ghost use Rattle.std.specs.Io.KnownBytes.{Appends};
ghost use Rattle.office_files.specs.declared.stop.Stop.TheVariants.{WriteFailed};
ghost use Rattle.wagons_program.specs.Streams.{PrintsNothing, streams};

use crate::opening::leave_book;
use crate::status::DONE;
use commit_book::Book;
use office_files::{Stop, Stopped};
use std::io::Write;

/// Prints the text that was made of an office, and leaves its book: status 0.
pub(crate) fn print_last<O: Write>(
    output: &mut O,
    book: Book,
    text: Result<String, Stop>,
) -> Result<u8, Stopped>
    ensures ok { IfOk result (λ status. status ≡ 0) }
    ensures printed { OnOk result (IsOkAnd text (λ made. Appends (O.contents output.old) (O.contents output.new) (string_bytes made))) }
    ensures err { IfErr result (λ stopped. (stopped.stop ≡ WriteFailed) ⊎ PrintsNothing (streams None (O.contents output.old) (O.contents output.new))) }
{
    leave_book(book);
    print_whole(output, &text?)?;
    Ok(DONE)
}

/// Prints a text. `WriteFailed` (94) where it could not be written.
pub(crate) fn print_whole<O: Write>(output: &mut O, text: &str) -> Result<(), Stop>
    ensures written { OnOk result (Appends (O.contents output.old) (O.contents output.new) text.now) }
    ensures err { IfErr result (λ why. why ≡ WriteFailed) }
{
    write_whole(output, text.as_bytes())
}

/// Writes bytes to an output. `WriteFailed` (94) where they could not be written.
pub(crate) fn write_whole<O: Write>(output: &mut O, bytes: &[u8]) -> Result<(), Stop>
    ensures written { OnOk result (Appends (O.contents output.old) (O.contents output.new) bytes.now) }
    ensures err { IfErr result (λ why. why ≡ WriteFailed) }
{
    match output.write_all(bytes) {
        Ok(()) => Ok(()),
        Err(_) => Err(Stop::WriteFailed),
    }
}
