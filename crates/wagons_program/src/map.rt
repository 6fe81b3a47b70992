//! The word `map`.
ghost use Rattle.std.specs.Prelude.{IfErr, IfOk};
ghost use Rattle.wagons_program.specs.OfLast.{IsMapPrinted};
ghost use Rattle.wagons_program.specs.Streams.{IsUnprinted, streams};

use crate::bringing::{Brought, bring_without_output};
use crate::printing::print_last;
use command_line::MapOptions;
use last_texts::{choice_of, last_map};
use office_files::{FileSystem, Stopped, read_places};
use std::io::{Read, Write};
use std::sync::Wait;
use std::thread::Threads;

/// Opens an office, brings the command lines of an input to it without replies, and prints the office as a graph: status
/// 0, whether a line was refused or not. The names of places are read first.
pub(crate) fn map<R: FileSystem + Threads + Wait + AllocGlobal, I: Read + Drop, O: Write>(
    rt: &R,
    options: &MapOptions<'_>,
    input: I,
    output: &mut O,
) -> Result<u8, Stopped>
    ensures ok { IfOk result (IsMapPrinted (R.bytes_at rt.now) options.now (streams (I.remaining input) (O.contents output.old) (O.contents output.new))) }
    ensures err { IfErr result (λ stopped. IsUnprinted (streams (I.remaining input) (O.contents output.old) (O.contents output.new)) stopped.stop) }
{
    let places = read_places(rt, options.places)?;
    let Brought {
        book,
        networks,
        status: _,
    } = bring_without_output(rt, &options.office, input)?;
    let text = last_map(rt.alloc(), &book, &networks, &places, &choice_of(options));
    print_last(output, book, text)
}
