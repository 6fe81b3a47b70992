//! The word `table`.
ghost use Rattle.std.specs.Prelude.{IfErr, IfOk};
ghost use Rattle.wagons_program.specs.OfLast.{IsTablePrinted};
ghost use Rattle.wagons_program.specs.Streams.{IsUnprinted, streams};

use crate::bringing::{Brought, bring_without_output};
use crate::early::tell_if_early;
use crate::printing::print_last;
use command_line::ProblemOptions;
use last_texts::last_table;
use office_files::{FileSystem, Stopped};
use std::io::{Read, Write};
use std::sync::Wait;
use std::thread::Threads;

/// Opens an office, brings the command lines of an input to it without replies, and prints the problem of its last version
/// at a moment as a table line: status 0, whether a line was refused or not.
pub(crate) fn table<
    R: FileSystem + Eprint + Threads + Wait + AllocGlobal,
    I: Read + Drop,
    O: Write,
>(rt: &R, options: &ProblemOptions<'_>, input: I, output: &mut O) -> Result<u8, Stopped>
    ensures ok { IfOk result (IsTablePrinted (R.bytes_at rt.now) options.now (streams (I.remaining input) (O.contents output.old) (O.contents output.new))) }
    ensures err { IfErr result (λ stopped. IsUnprinted (streams (I.remaining input) (O.contents output.old) (O.contents output.new)) stopped.stop) }
{
    let Brought {
        mut book,
        networks: _,
        status: _,
    } = bring_without_output(rt, &options.office, input)?;
    tell_if_early(rt, options.at, book.state());
    let text = last_table(rt.alloc(), &mut book, options.at);
    print_last(output, book, text)
}
