//! An office that is opened, and the command lines of an input brought to it.
ghost use Rattle.std.specs.Prelude.{◌≡◌, false, IfErr, IfOk};
ghost use Rattle.line_engine.specs.Lines.{max_line_bytes};
ghost use Rattle.office.specs.CommandReplies.{ToCommands};
ghost use Rattle.wagons_program.specs.Brought.{AreAnswered, AreStopped, IsBroughtTo, IsNotBrought, lines_over};
ghost use Rattle.wagons_program.specs.Streams.{streams, without_output};

use crate::opening::{leave_book, new_book};
use crate::status::status_of_run;
use command_line::OfficeOptions;
use commit_book::Book;
use line_engine::{LineLimit, StdDevice};
use line_network::Network;
use office_files::{FileSystem, OfficeFiles, Stop, Stopped, read_files, told_of_lines};
use std::alloc::Global;
use std::io;
use std::io::{Read, Write};
use std::sync::Wait;
use std::thread::Threads;

/// An office as the lines of an input left it.
#[derive(Drop)]
pub(crate) struct Brought {
    pub(crate) book: Book,
    pub(crate) networks: Vec<Network>,
    /// 0, or 1 where a line was refused.
    pub(crate) status: u8,
}

/// The same as `bring`, with replies that go to nobody.
pub(crate) fn bring_without_output<R: FileSystem + Threads + Wait + AllocGlobal, I: Read + Drop>(
    rt: &R,
    options: &OfficeOptions<'_>,
    input: I,
) -> Result<Brought, Stopped>
    ensures networks { IfOk result (λ brought. brought.networks.items ≡ brought.book.setting.networks) }
    ensures brought { IfOk result (λ brought. IsBroughtTo (R.bytes_at rt.now) options.now brought.networks.items (streams (I.remaining input) None None) brought.book brought.status) }
{
    bring(rt, options, input, &mut StdDevice::new(io::sink()))
}

/// Opens an office and brings the command lines of an input to it, whose replies are written to the output.
pub(crate) fn bring<R: FileSystem + Threads + Wait + AllocGlobal, I: Read + Drop, O: Write>(
    rt: &R,
    options: &OfficeOptions<'_>,
    input: I,
    output: &mut StdDevice<O>,
) -> Result<Brought, Stopped>
    requires { output.old.has_failed ≡ false }
    ensures networks { IfOk result (λ brought. brought.networks.items ≡ brought.book.setting.networks) }
    ensures brought { IfOk result (λ brought. IsBroughtTo (R.bytes_at rt.now) options.now brought.networks.items (streams (I.remaining input) (O.contents output.old.device) (O.contents output.new.device)) brought.book brought.status) }
    ensures err { IfErr result (λ stopped. IsNotBrought (R.bytes_at rt.now) options.now (streams (I.remaining input) (O.contents output.old.device) (O.contents output.new.device)) stopped.stop) }
{
    let OfficeFiles { first, networks } = read_files(rt, options)?;
    let mut book = new_book(rt, options, first, &networks)?;
    match bring_told_lines(rt.alloc(), input, output, &mut book) {
        Ok(status) => Ok(Brought {
            book,
            networks,
            status,
        }),
        Err(stopped) => {
            leave_book(book);
            Err(stopped)
        }
    }
}

/// The same as `bring_lines`; where the run stops, with what people are told.
fn bring_told_lines<I: Read + Drop, O: Write>(
    alloc: Global,
    input: I,
    output: &mut StdDevice<O>,
    book: &mut Book,
) -> Result<u8, Stopped>
    requires { output.old.has_failed ≡ false }
    ensures setting { book.new.setting ≡ book.old.setting }
    ensures ok { IfOk result (AreAnswered ToCommands (lines_over max_line_bytes (streams (I.remaining input) (O.contents output.old.device) (O.contents output.new.device)) book.old book.new)) }
    ensures err { IfErr result (λ stopped. AreStopped ToCommands (lines_over max_line_bytes (streams (I.remaining input) (O.contents output.old.device) (O.contents output.new.device)) book.old book.new) stopped.stop) }
{
    let outcome = bring_lines(alloc, input, output, book);
    told_of_lines(alloc, LineLimit::standard(), outcome)
}

/// Brings the command lines of an input to a book: status 0, or 1 where a line was refused.
fn bring_lines<I: Read + Drop, O: Write>(
    alloc: Global,
    input: I,
    output: &mut StdDevice<O>,
    book: &mut Book,
) -> Result<u8, Stop>
    requires { output.old.has_failed ≡ false }
    ensures setting { book.new.setting ≡ book.old.setting }
    ensures ok { IfOk result (AreAnswered ToCommands (lines_over max_line_bytes (streams (I.remaining input) (O.contents output.old.device) (O.contents output.new.device)) book.old book.new)) }
    ensures err { IfErr result (AreStopped ToCommands (lines_over max_line_bytes (streams (I.remaining input) (O.contents output.old.device) (O.contents output.new.device)) book.old book.new)) }
{
    let mut reader = StdDevice::new(input);
    status_of_run(office::run(alloc, &mut reader, output, book))
}
