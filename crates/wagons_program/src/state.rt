//! The words `fleet` and `orders`.
ghost use Rattle.std.specs.Prelude.{IfErr, IfOk};
ghost use Rattle.wagons_program.specs.OfLast.{AreOrdersPrinted, IsFleetPrinted};
ghost use Rattle.wagons_program.specs.Streams.{IsUnprinted, streams};

use crate::opening::leave_book;
use crate::printing::write_whole;
use crate::shown::{Shown, bring_shown};
use crate::status::DONE;
use command_line::StateOptions;
use last_texts::{last_fleet, last_orders};
use office_files::{FileSystem, Stopped};
use std::io::{Read, Write};
use std::sync::Wait;
use std::thread::Threads;

/// Opens an office, brings the command lines of an input to it without replies, and prints its wagons: status 0, whether a
/// line was refused or not. The names of places and the time zone are read first.
pub(crate) fn fleet<R: FileSystem + Threads + Wait + AllocGlobal, I: Read + Drop, O: Write>(
    rt: &R,
    options: &StateOptions<'_>,
    input: I,
    output: &mut O,
) -> Result<u8, Stopped>
    ensures ok { IfOk result (IsFleetPrinted (R.bytes_at rt.now) options.now (streams (I.remaining input) (O.contents output.old) (O.contents output.new))) }
    ensures err { IfErr result (λ stopped. IsUnprinted (streams (I.remaining input) (O.contents output.old) (O.contents output.new)) stopped.stop) }
{
    let Shown { book, places, zone } = bring_shown(
        rt,
        &options.office,
        options.places,
        options.zone,
        input,
    )?;
    let text = last_fleet(rt.alloc(), &book, options, &places, &zone);
    leave_book(book);
    write_whole(output, &text?)?;
    Ok(DONE)
}

/// The same of an office's orders.
pub(crate) fn orders<R: FileSystem + Threads + Wait + AllocGlobal, I: Read + Drop, O: Write>(
    rt: &R,
    options: &StateOptions<'_>,
    input: I,
    output: &mut O,
) -> Result<u8, Stopped>
    ensures ok { IfOk result (AreOrdersPrinted (R.bytes_at rt.now) options.now (streams (I.remaining input) (O.contents output.old) (O.contents output.new))) }
    ensures err { IfErr result (λ stopped. IsUnprinted (streams (I.remaining input) (O.contents output.old) (O.contents output.new)) stopped.stop) }
{
    let Shown { book, places, zone } = bring_shown(
        rt,
        &options.office,
        options.places,
        options.zone,
        input,
    )?;
    let text = last_orders(rt.alloc(), &book, options, &places, &zone);
    leave_book(book);
    write_whole(output, &text?)?;
    Ok(DONE)
}
