//! The file that notes are written to.
ghost use Rattle.std.specs.Prelude.{◌≡◌, IfErr};
ghost use Rattle.office_files.specs.Told.{IsToldOfFile};
ghost use Rattle.office_files.specs.declared.stop.Stop.TheVariants as stop;

use crate::file_system::FileSystem;
use crate::stop::Stop;
use crate::stopped::Stopped;
use crate::told_file::not_opened;
use fault_texts::file_text;
use std::alloc::Global;

/// The file that notes are written to, behind what it has. `OpenFailed` (93) where it couldn't be opened.
pub fn open_notes<S: FileSystem + AllocGlobal>(rt: &S, path: &str) -> Result<S::File, Stopped>
    ensures err { IfErr result (λ stopped. stopped.stop ≡ stop.OpenFailed) }
    ensures told { IfErr result (λ stopped. IsToldOfFile path.now stopped.told) }
{
    match rt.append_at(path) {
        Ok(file) => Ok(file),
        Err(error) => Err(not_opened(rt.alloc(), path, &error)),
    }
}

/// That notes couldn't be written to a file, from those of this line on, where they are of a line: `NotesFailed` (94).
pub fn notes_not_written(alloc: Global, path: &str, line: Option<u64>) -> Stopped
    ensures stop { result.stop ≡ stop.NotesFailed line }
    ensures told { IsToldOfFile path.now result.told }
{
    let text = file_text(alloc, path, "the notes couldn't be written");
    Stopped::told(Stop::NotesFailed(line), text)
}
