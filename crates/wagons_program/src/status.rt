//! The exit status of a run over lines.
ghost use Rattle.std.specs.Prelude.{◌≡◌};
ghost use Rattle.wagons_program.specs.Status.{outcome_of_run};

use office::{RunCount, RunFault};
use office_files::Stop;

/// The status of a run that came to its end without a refusal.
pub(crate) const DONE: u8 = 0;

/// The status of a run that came to its end with a refusal.
pub(crate) const REFUSED: u8 = 1;

/// The status of a run that could not start or stopped.
pub(crate) const STOPPED: u8 = 2;

/// 0 where the run came to its end and no line was refused, 1 where one was; else why it stopped.
pub(crate) fn status_of_run(count: Result<RunCount, RunFault>) -> Result<u8, Stop>
    ensures { result ≡ outcome_of_run count }
{
    match count {
        Ok(count) if count.refused == 0 => Ok(DONE),
        Ok(_) => Ok(REFUSED),
        Err(fault) => Err(Stop::Run(fault)),
    }
}
