//! The option `--places`.
ghost use Rattle.std.specs.Prelude.{IfErr, IfOk, option_map};
ghost use Rattle.office_files.specs.InFile.{ArePlacesIn};
ghost use Rattle.office_files.specs.PlacesFor.{AreNamesAt, ArePlacesAt};
ghost use Rattle.office_files.specs.Refused.{ArePlacesRefused, IsUnread};

use crate::file_system::FileSystem;
use crate::stopped::Stopped;
use crate::told_file::{ToldFile, open};
use crate::told_files::told_of_places;
use place_names::Places;
use std::alloc::Global;
use std::io::Read;

/// The names of places that a file says, where one is given.
pub fn read_names<S: FileSystem + AllocGlobal>(
    rt: &S,
    path: Option<&str>,
) -> Result<Option<Places>, Stopped>
    ensures { IfOk result (AreNamesAt (S.bytes_at rt.now) (option_map (λ text. text.now) path.entry)) }
{
    match path {
        Some(path) => Ok(Some(names_at(rt, path)?)),
        None => Ok(None),
    }
}

/// The same; none where no file is given.
pub fn read_places<S: FileSystem + AllocGlobal>(
    rt: &S,
    path: Option<&str>,
) -> Result<Places, Stopped>
    ensures { IfOk result (ArePlacesAt (S.bytes_at rt.now) (option_map (λ text. text.now) path.entry)) }
{
    match path {
        Some(path) => names_at(rt, path),
        None => Ok(Places::empty(rt.alloc())),
    }
}

/// The names of places that the file at a path says.
fn names_at<S: FileSystem + AllocGlobal>(rt: &S, path: &str) -> Result<Places, Stopped>
    ensures places { IfOk result (ArePlacesIn (S.bytes_at rt.now path.now)) }
    ensures refused { IfErr result (IsUnread (ArePlacesRefused (S.bytes_at rt.now path.now) path.now)) }
{
    let file = open(rt, path)?;
    names_in(rt.alloc(), path, file)
}

/// The names of places that an open file says.
fn names_in<F: Read + Drop>(alloc: Global, path: &str, file: ToldFile<F>) -> Result<Places, Stopped>
    ensures places { IfOk result (ArePlacesIn (F.remaining file.file)) }
    ensures refused { IfErr result (ArePlacesRefused (F.remaining file.file) path.now) }
{
    let mut file = file;
    match Places::read_names(alloc, &mut file) {
        Ok(places) => Ok(places),
        Err(fault) => Err(told_of_places(alloc, path, fault, &file)),
    }
}
