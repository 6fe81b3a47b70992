//! The word `solve`.
ghost use Rattle.std.specs.Prelude.{◌≡◌, false, IfErr, IfOk};
ghost use Rattle.table_lines.specs.Solving.{ToTables};
ghost use Rattle.wagons_program.specs.Brought.{IsInputAnswered, IsInputStopped};
ghost use Rattle.wagons_program.specs.Streams.{streams};

use crate::status::status_of_run;
use line_engine::{LineLimit, StdDevice};
use office_files::{Stop, Stopped, told_of_lines};
use std::alloc::Global;
use std::io::{Read, Write};
use table_lines::solve_run;

/// Plans the table lines of an input: status 0, or 1 where one was refused.
pub(crate) fn solve<I: Read + Drop, O: Write>(
    alloc: Global,
    limit: LineLimit,
    input: I,
    output: &mut StdDevice<O>,
) -> Result<u8, Stopped>
    requires { output.old.has_failed ≡ false }
    ensures ok { IfOk result (IsInputAnswered ToTables limit limit (streams (I.remaining input) (O.contents output.old.device) (O.contents output.new.device))) }
    ensures err { IfErr result (λ stopped. IsInputStopped ToTables limit limit (streams (I.remaining input) (O.contents output.old.device) (O.contents output.new.device)) stopped.stop) }
{
    let outcome = solve_lines(alloc, limit, input, output);
    told_of_lines(alloc, limit, outcome)
}

/// The same, without what people are told where the run stops.
fn solve_lines<I: Read + Drop, O: Write>(
    alloc: Global,
    limit: LineLimit,
    input: I,
    output: &mut StdDevice<O>,
) -> Result<u8, Stop>
    requires { output.old.has_failed ≡ false }
    ensures ok { IfOk result (IsInputAnswered ToTables limit limit (streams (I.remaining input) (O.contents output.old.device) (O.contents output.new.device))) }
    ensures err { IfErr result (IsInputStopped ToTables limit limit (streams (I.remaining input) (O.contents output.old.device) (O.contents output.new.device))) }
{
    let mut reader = StdDevice::new(input);
    status_of_run(solve_run(alloc, limit, &mut reader, output))
}
