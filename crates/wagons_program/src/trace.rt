//! The word `trace`.
ghost use Rattle.std.specs.Prelude.{◌≡◌, false, IfErr, IfOk, None};
ghost use Rattle.line_engine.specs.Lines.{max_line_bytes};
ghost use Rattle.traces.specs.Traces.{Follows};
ghost use Rattle.wagons_program.specs.Brought.{AreAnswered, lines_over};
ghost use Rattle.wagons_program.specs.Streams.{IsUnprinted, streams};
ghost use Rattle.wagons_program.specs.Traced.{IsFirstTraceFor, IsTraceOf, IsTracePrinted, asked_of};

use crate::opening::{leave_book, new_book};
use crate::printing::write_whole;
use crate::status::{DONE, status_of_run};
use command_line::{Followed, TraceOptions};
use last_texts::{read_zone, shown_trace};
use line_engine::{LineLimit, StdDevice};
use office_files::{
    FileSystem, OfficeFiles, Stop, Stopped, read_files, read_places, told_of_lines,
};
use std::alloc::Global;
use std::io;
use std::io::{Read, Write};
use std::sync::Wait;
use std::thread::Threads;
use traces::{Asked, Trace, trace_journal};

/// Opens an office, brings the command lines of an input to it without replies, and prints what they did to a wagon or an order:
/// status 0, whether a line was refused or not. The names of places and the time zone are read first.
pub(crate) fn trace<R: FileSystem + Threads + Wait + AllocGlobal, I: Read + Drop, O: Write>(
    rt: &R,
    options: &TraceOptions<'_>,
    input: I,
    output: &mut O,
) -> Result<u8, Stopped>
    ensures ok { IfOk result (IsTracePrinted (R.bytes_at rt.now) options.now (streams (I.remaining input) (O.contents output.old) (O.contents output.new))) }
    ensures err { IfErr result (λ stopped. IsUnprinted (streams (I.remaining input) (O.contents output.old) (O.contents output.new)) stopped.stop) }
{
    let places = read_places(rt, options.state.places)?;
    let zone = read_zone(rt, options.state.zone)?;
    let trace = bring_trace(rt, options, input)?;
    let text = shown_trace(rt.alloc(), &trace, &options.state, &places, &zone);
    leave_book(trace.into_book());
    write_whole(output, &text?)?;
    Ok(DONE)
}

/// Opens an office, and follows the command lines of an input to their end.
fn bring_trace<R: FileSystem + Threads + Wait + AllocGlobal, I: Read + Drop>(
    rt: &R,
    options: &TraceOptions<'_>,
    input: I,
) -> Result<Trace, Stopped>
    ensures { IfOk result (IsTraceOf (R.bytes_at rt.now) options.now (I.remaining input)) }
{
    let mut trace = begin_trace(rt, options)?;
    let outcome = follow_lines(rt.alloc(), input, &mut trace);
    match told_of_lines(rt.alloc(), LineLimit::standard(), outcome) {
        Ok(_status) => whole_trace(trace),
        Err(stopped) => {
            leave_book(trace.into_book());
            Err(stopped)
        }
    }
}

/// A trace, unless memory was refused for a line.
fn whole_trace(trace: Trace) -> Result<Trace, Stopped>
    ensures same { IfOk result (λ whole. whole ≡ trace) }
    ensures whole { IfOk result (λ whole. whole.partial ≡ false) }
{
    if trace.is_partial() {
        leave_book(trace.into_book());
        return Err(Stopped::from(Stop::OutOfMemory));
    }
    Ok(trace)
}

/// Opens an office, and begins the trace that is asked for.
fn begin_trace<R: FileSystem + Threads + Wait + AllocGlobal>(
    rt: &R,
    options: &TraceOptions<'_>,
) -> Result<Trace, Stopped>
    ensures { IfOk result (IsFirstTraceFor (R.bytes_at rt.now) options.now) }
{
    let OfficeFiles { first, networks } = read_files(rt, &options.state.office)?;
    let book = new_book(rt, &options.state.office, first, &networks)?;
    Ok(Trace::new(rt.alloc(), book, asked_of(options.followed))?)
}

/// What a trace follows, as it is asked for.
fn asked_of(followed: Followed) -> Asked
    ensures { result ≡ asked_of followed }
{
    match followed {
        Followed::Wagon(number) => Asked::Wagon(number),
        Followed::Order(id) => Asked::Order(id),
    }
}

/// Follows the command lines of an input to their end.
fn follow_lines<I: Read + Drop>(alloc: Global, input: I, trace: &mut Trace) -> Result<u8, Stop>
    ensures { IfOk result (AreAnswered Follows (lines_over max_line_bytes (streams (I.remaining input) None None) trace.old trace.new)) }
{
    let mut reader = StdDevice::new(input);
    let mut nowhere = StdDevice::new(io::sink());
    status_of_run(trace_journal(alloc, &mut reader, &mut nowhere, trace))
}
