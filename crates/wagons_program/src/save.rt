//! The word `save`.
ghost use Rattle.std.specs.Prelude.{IfErr, IfOk, None, option_map};
ghost use Rattle.wagons_program.specs.Brought.{IsBroughtTo};
ghost use Rattle.wagons_program.specs.FirstLines.{input_upto};
ghost use Rattle.wagons_program.specs.OfLast.{AreAddedFor, IsSavedPrinted};
ghost use Rattle.wagons_program.specs.Streams.{IsUnprinted, streams};

use crate::bringing::{Brought, bring_without_output};
use crate::first_lines::FirstLines;
use crate::printing::print_last;
use command_line::{OfficeOptions, SaveOptions};
use fleet_rows::Roster;
use last_texts::last_saved;
use office_files::{FileSystem, Stopped, read_roster};
use std::io::{Read, Write};
use std::sync::Wait;
use std::thread::Threads;

/// Opens an office, brings the command lines of an input to it without replies, all of them or the first ones, changes its
/// fleet as the options say, and prints it as a checkpoint: status 0, whether a line was refused or not. The roster of
/// the wagons that are added is read first.
pub(crate) fn save<R: FileSystem + Threads + Wait + AllocGlobal, I: Read + Drop, O: Write>(
    rt: &R,
    options: &SaveOptions<'_>,
    input: I,
    output: &mut O,
) -> Result<u8, Stopped>
    ensures ok { IfOk result (IsSavedPrinted (R.bytes_at rt.now) options.now (streams (I.remaining input) (O.contents output.old) (O.contents output.new))) }
    ensures err { IfErr result (λ stopped. IsUnprinted (streams (I.remaining input) (O.contents output.old) (O.contents output.new)) stopped.stop) }
{
    let added = read_added(rt, options.with)?;
    let Brought {
        book,
        networks: _,
        status: _,
    } = bring_upto(rt, &options.office, options.upto, input)?;
    let text = last_saved(rt.alloc(), &book, &added, &options.without);
    print_last(output, book, text)
}

/// The roster of the wagons that are added, where one is given.
fn read_added<R: FileSystem + AllocGlobal>(
    rt: &R,
    path: Option<&str>,
) -> Result<Option<Roster>, Stopped>
    ensures { IfOk result (AreAddedFor (R.bytes_at rt.now) (option_map (λ text. text.now) path.entry)) }
{
    match path {
        Some(path) => Ok(Some(read_roster(rt, path)?)),
        None => Ok(None),
    }
}

/// The same as `bring_without_output`, of the first lines alone where they are counted.
fn bring_upto<R: FileSystem + Threads + Wait + AllocGlobal, I: Read + Drop>(
    rt: &R,
    options: &OfficeOptions<'_>,
    upto: Option<u64>,
    input: I,
) -> Result<Brought, Stopped>
    ensures { IfOk result (λ brought. IsBroughtTo (R.bytes_at rt.now) options.now brought.networks.items (streams (input_upto upto (I.remaining input)) None None) brought.book brought.status) }
{
    match upto {
        Some(lines) => bring_without_output(rt, options, FirstLines::new(input, lines)),
        None => bring_without_output(rt, options, input),
    }
}
