//! A file that keeps why its reading failed, and what people are told then.
ghost use Rattle.std.specs.Prelude.{◌≡◌, IfErr, IfOk};
ghost use Rattle.office_files.specs.InFile.{HasBytes};
ghost use Rattle.office_files.specs.Told.{IsOfFile, IsToldOfFile};
ghost use Rattle.office_files.specs.declared.stop.Stop.TheVariants.{OpenFailed};

use crate::file_system::FileSystem;
use crate::stop::Stop;
use crate::stopped::Stopped;
use fault_texts::file_text;
use std::alloc::{AllocError, Global};
use std::io;
use std::io::Read;

/// A file that keeps why its reading failed.
#[derive(Drop)]
pub struct ToldFile<F> {
    file: F,
    /// The last failure of a read, where there was one.
    failure: Option<io::Error>,
}

impl<F> ToldFile<F> {
    /// What the system said of the last read that failed, as people are told of it.
    pub(crate) fn failure_text(&self, alloc: Global, path: &str) -> Result<String, AllocError>
        ensures { IfOk result (IsOfFile path.now) }
    {
        match &self.failure {
            Some(error) => system_text(alloc, path, error),
            None => file_text(alloc, path, "it couldn't be read"),
        }
    }
}

impl<F: Read> Read for ToldFile<F> {
    ghost remaining = { λ told. F.remaining told.file };

    fn read(&mut self, buf: &mut [u8]) -> io::Result<usize> {
        match self.file.read(buf) {
            Ok(count) => Ok(count),
            Err(error) => {
                self.failure = Some(error);
                Err(error)
            }
        }
    }
}

/// A file that is open for reading, and keeps why its reading failed. `OpenFailed` (93) where it couldn't be opened.
pub fn open<S: FileSystem + AllocGlobal>(rt: &S, path: &str) -> Result<ToldFile<S::File>, Stopped>
    ensures bytes { IfOk result (λ told. HasBytes (S.bytes_at rt.now path.now) (S.File.remaining told.file)) }
    ensures err { IfErr result (λ stopped. stopped.stop ≡ OpenFailed) }
    ensures told { IfErr result (λ stopped. IsToldOfFile path.now stopped.told) }
{
    Ok(ToldFile {
        file: open_plain(rt, path)?,
        failure: None,
    })
}

/// A file that is open for reading. `OpenFailed` (93) where it couldn't be opened.
pub fn open_plain<S: FileSystem + AllocGlobal>(rt: &S, path: &str) -> Result<S::File, Stopped>
    ensures bytes { IfOk result (λ file. HasBytes (S.bytes_at rt.now path.now) (S.File.remaining file)) }
    ensures err { IfErr result (λ stopped. stopped.stop ≡ OpenFailed) }
    ensures told { IfErr result (λ stopped. IsToldOfFile path.now stopped.told) }
{
    match rt.open_at(path) {
        Ok(file) => Ok(file),
        Err(error) => Err(not_opened(rt.alloc(), path, &error)),
    }
}

/// That a file couldn't be opened: `OpenFailed` (93), with what the system says.
pub(crate) fn not_opened(alloc: Global, path: &str, error: &io::Error) -> Stopped
    ensures stop { result.stop ≡ OpenFailed }
    ensures told { IsToldOfFile path.now result.told }
{
    Stopped::told(Stop::OpenFailed, system_text(alloc, path, error))
}

/// A file and what the system says of it, without the error's number.
fn system_text(alloc: Global, path: &str, error: &io::Error) -> Result<String, AllocError>
    ensures { IfOk result (IsOfFile path.now) }
{
    let said = format!(in alloc; "{error}")?;
    file_text(alloc, path, without_number(said.as_str()))
}

/// What the system says, without the number behind it.
fn without_number(said: &str) -> &str {
    match said.split_once(" (os error ") {
        Some((words, _)) => words,
        None => said,
    }
}
