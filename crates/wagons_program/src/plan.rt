//! The word `plan`.
ghost use Rattle.std.specs.Prelude.{IfErr, IfOk};
ghost use Rattle.wagons_program.specs.OfLast.{IsPlanPrinted};
ghost use Rattle.wagons_program.specs.Streams.{IsUnprinted, streams};

use crate::early::tell_if_early;
use crate::opening::leave_book;
use crate::printing::write_whole;
use crate::shown::{Shown, bring_shown};
use crate::status::DONE;
use command_line::PlanOptions;
use last_texts::last_plan_text;
use office_files::{FileSystem, Stopped};
use std::io::{Read, Write};
use std::sync::Wait;
use std::thread::Threads;

/// Opens an office, brings the command lines of an input to it without replies, plans the problem of its last version at a
/// moment, and prints the plan for people: status 0, whether a line was refused or not. The names of places and the time
/// zone are read first.
pub(crate) fn plan<R: FileSystem + Eprint + Threads + Wait + AllocGlobal, I: Read + Drop, O: Write>(
    rt: &R,
    options: &PlanOptions<'_>,
    input: I,
    output: &mut O,
) -> Result<u8, Stopped>
    ensures ok { IfOk result (IsPlanPrinted (R.bytes_at rt.now) options.now (streams (I.remaining input) (O.contents output.old) (O.contents output.new))) }
    ensures err { IfErr result (λ stopped. IsUnprinted (streams (I.remaining input) (O.contents output.old) (O.contents output.new)) stopped.stop) }
{
    let Shown {
        mut book,
        places,
        zone,
    } = bring_shown(
        rt,
        &options.problem.office,
        options.places,
        options.zone,
        input,
    )?;
    tell_if_early(rt, options.problem.at, book.state());
    let text = last_plan_text(rt.alloc(), &mut book, options, &places, &zone);
    leave_book(book);
    write_whole(output, &text?)?;
    Ok(DONE)
}
