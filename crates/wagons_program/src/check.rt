//! The word `check`.
ghost use Rattle.std.specs.Prelude.{◌≡◌, false, IfErr, IfOk};
ghost use Rattle.table_lines.specs.Checking.{ToPlans};
ghost use Rattle.wagons_program.specs.Brought.{IsInputAnswered, IsInputStopped};
ghost use Rattle.wagons_program.specs.Streams.{streams};

use crate::status::status_of_run;
use line_engine::{LineLimit, StdDevice};
use office_files::{Stop, Stopped, told_of_lines};
use std::alloc::Global;
use std::io::{Read, Write};
use table_lines::check_run;

/// Checks the table lines of an input: status 0, or 1 where one was refused.
pub(crate) fn check<I: Read + Drop, O: Write>(
    alloc: Global,
    limit: LineLimit,
    input: I,
    output: &mut StdDevice<O>,
) -> Result<u8, Stopped>
    requires { output.old.has_failed ≡ false }
    ensures ok { IfOk result (IsInputAnswered ToPlans limit tt (streams (I.remaining input) (O.contents output.old.device) (O.contents output.new.device))) }
    ensures err { IfErr result (λ stopped. IsInputStopped ToPlans limit tt (streams (I.remaining input) (O.contents output.old.device) (O.contents output.new.device)) stopped.stop) }
{
    let outcome = check_lines(alloc, limit, input, output);
    told_of_lines(alloc, limit, outcome)
}

/// The same, without what people are told where the run stops.
fn check_lines<I: Read + Drop, O: Write>(
    alloc: Global,
    limit: LineLimit,
    input: I,
    output: &mut StdDevice<O>,
) -> Result<u8, Stop>
    requires { output.old.has_failed ≡ false }
    ensures ok { IfOk result (IsInputAnswered ToPlans limit tt (streams (I.remaining input) (O.contents output.old.device) (O.contents output.new.device))) }
    ensures err { IfErr result (IsInputStopped ToPlans limit tt (streams (I.remaining input) (O.contents output.old.device) (O.contents output.new.device))) }
{
    let mut reader = StdDevice::new(input);
    status_of_run(check_run(alloc, limit, &mut reader, output))
}
