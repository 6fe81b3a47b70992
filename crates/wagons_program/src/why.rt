//! The word `why`.
ghost use Rattle.std.specs.Prelude.{◌≡◌, IfErr, IfOk, None, Some, option_copied};
ghost use Rattle.command_line.specs.declared.why_options.When.TheVariants as when;
ghost use Rattle.line_engine.specs.Lines.{max_line_bytes};
ghost use Rattle.line_plans.specs.PlanLines.{BeginsPlans};
ghost use Rattle.wagons_program.specs.Brought.{AreAnswered, lines_over};
ghost use Rattle.wagons_program.specs.Reasoned.{AreFirstLinesFor, AreReasonsFor, AreReasonsPrinted, IsFound, IsPlanOfLine};
ghost use Rattle.wagons_program.specs.Streams.{IsUnprinted, streams};

use crate::bringing::{Brought, bring_without_output};
use crate::early::tell_if_early;
use crate::first_lines::FirstLines;
use crate::opening::{leave_book, new_book};
use crate::printing::{print_last, print_whole};
use crate::status::{DONE, status_of_run};
use command_line::{OfficeOptions, When, WhyOptions};
use commit_book::BegunProblem;
use last_texts::{last_reasons, reasons_of_problem};
use line_engine::{LineLimit, StdDevice};
use line_plans::{PlanLines, plan_lines};
use office_files::{FileSystem, OfficeFiles, Stop, Stopped, read_files, read_names, told_of_lines};
use place_names::Places;
use rail_codes::Moment;
use std::alloc::Global;
use std::io;
use std::io::{Read, Write};
use std::sync::Wait;
use std::thread::Threads;

/// Opens an office, brings the command lines of an input to it without replies, plans the problem that is asked about, and prints
/// why that plan is as it is, or what it says of an order or a wagon: status 0, whether a line was refused or not. The names of
/// places are read first.
pub(crate) fn why<R: FileSystem + Eprint + Threads + Wait + AllocGlobal, I: Read + Drop, O: Write>(
    rt: &R,
    options: &WhyOptions<'_>,
    input: I,
    output: &mut O,
) -> Result<u8, Stopped>
    ensures ok { IfOk result (AreReasonsPrinted (R.bytes_at rt.now) options.now (streams (I.remaining input) (O.contents output.old) (O.contents output.new))) }
    ensures err { IfErr result (λ stopped. IsUnprinted (streams (I.remaining input) (O.contents output.old) (O.contents output.new)) stopped.stop) }
{
    let names = read_names(rt, options.places)?;
    match options.when {
        When::At(at) => why_at(rt, options, at, names.as_ref(), input, output),
        When::Line(line) => why_line(rt, options, line, names.as_ref(), input, output),
    }
}

/// The reasons of the plan of the last version at a moment.
fn why_at<R: FileSystem + Eprint + Threads + Wait + AllocGlobal, I: Read + Drop, O: Write>(
    rt: &R,
    options: &WhyOptions<'_>,
    at: Moment,
    names: Option<&Places>,
    input: I,
    output: &mut O,
) -> Result<u8, Stopped>
    ensures ok { IfOk result (AreReasonsFor (R.bytes_at rt.now) options.now (when.At at) (option_copied names.entry) (streams (I.remaining input) (O.contents output.old) (O.contents output.new))) }
    ensures err { IfErr result (λ stopped. IsUnprinted (streams (I.remaining input) (O.contents output.old) (O.contents output.new)) stopped.stop) }
{
    let Brought {
        mut book,
        networks: _,
        status: _,
    } = bring_without_output(rt, &options.office, input)?;
    tell_if_early(rt, at, book.state());
    let text = last_reasons(rt.alloc(), &mut book, at, options, names);
    print_last(output, book, text)
}

/// The reasons of the plan of a line. `LineWithoutPlan` (84) where there is none.
fn why_line<R: FileSystem + Threads + Wait + AllocGlobal, I: Read + Drop, O: Write>(
    rt: &R,
    options: &WhyOptions<'_>,
    line: u64,
    names: Option<&Places>,
    input: I,
    output: &mut O,
) -> Result<u8, Stopped>
    ensures ok { IfOk result (AreReasonsFor (R.bytes_at rt.now) options.now (when.Line line) (option_copied names.entry) (streams (I.remaining input) (O.contents output.old) (O.contents output.new))) }
    ensures err { IfErr result (λ stopped. IsUnprinted (streams (I.remaining input) (O.contents output.old) (O.contents output.new)) stopped.stop) }
{
    let plan = plan_of_line(rt, &options.office, line, input)?;
    let text = reasons_of_problem(rt.alloc(), &plan, options, names)?;
    print_whole(output, &text)?;
    Ok(DONE)
}

/// Opens an office, brings the first lines of an input to it, so many of them, and finds the problem that the last one is about.
fn plan_of_line<R: FileSystem + Threads + Wait + AllocGlobal, I: Read + Drop>(
    rt: &R,
    options: &OfficeOptions<'_>,
    line: u64,
    input: I,
) -> Result<BegunProblem, Stopped>
    ensures { IfOk result (IsPlanOfLine (R.bytes_at rt.now) options.now (I.remaining input) line) }
{
    let mut lines = begin_lines(rt, options)?;
    let outcome = bring_lines(rt.alloc(), FirstLines::new(input, line), &mut lines);
    match told_of_lines(rt.alloc(), LineLimit::standard(), outcome) {
        Ok(_status) => plan_found(rt.alloc(), lines, line),
        Err(stopped) => {
            leave_book(lines.into_book());
            Err(stopped)
        }
    }
}

/// The problem that the last line is about, which must have this number. The book is left.
fn plan_found(alloc: Global, lines: PlanLines, line: u64) -> Result<BegunProblem, Stopped>
    ensures { IfOk result (IsFound lines line) }
{
    let mut lines = lines;
    let found = found_plan(alloc, &mut lines, line);
    leave_book(lines.into_book());
    found
}

/// The same, where the lines stay as they are.
fn found_plan(alloc: Global, lines: &mut PlanLines, line: u64) -> Result<BegunProblem, Stopped>
    ensures found { IfOk result (IsFound lines.old line) }
    ensures same { lines.new ≡ lines.old }
{
    if lines.is_partial() {
        return Err(Stopped::from(Stop::OutOfMemory));
    }
    if lines.last_line() != line {
        return Err(Stopped::from(Stop::LineWithoutPlan(line)));
    }
    match lines.last_plan(alloc)? {
        Some(plan) => Ok(plan),
        None => Err(Stopped::from(Stop::LineWithoutPlan(line))),
    }
}

/// Opens an office, before the first of its lines.
fn begin_lines<R: FileSystem + Threads + Wait + AllocGlobal>(
    rt: &R,
    options: &OfficeOptions<'_>,
) -> Result<PlanLines, Stopped>
    ensures { IfOk result (AreFirstLinesFor (R.bytes_at rt.now) options.now) }
{
    let OfficeFiles { first, networks } = read_files(rt, options)?;
    let book = new_book(rt, options, first, &networks)?;
    Ok(PlanLines::new(rt.alloc(), book, options.limits))
}

/// Brings the lines of an input to their end.
fn bring_lines<I: Read + Drop>(alloc: Global, input: I, lines: &mut PlanLines) -> Result<u8, Stop>
    ensures { IfOk result (AreAnswered BeginsPlans (lines_over max_line_bytes (streams (I.remaining input) None None) lines.old lines.new)) }
{
    let mut reader = StdDevice::new(input);
    let mut nowhere = StdDevice::new(io::sink());
    status_of_run(plan_lines(alloc, &mut reader, &mut nowhere, lines))
}
