//! The time zone in which moments are shown.
ghost use Rattle.std.specs.Prelude.{◌≡◌, IfErr, IfOk, IfSome, Some, option_map, string_bytes, take};
ghost use Rattle.last_texts.specs.ZoneClock.{AreZoneBytes, HasZoneFor, IsClockFor, IsNoClock, IsReadFor, max_zone_bytes, name_of, stop_for, zone_path};

use fault_texts::file_text;
use jiff::Error;
use jiff::tz::TimeZoneDatabase;
use office_files::{FileSystem, Stop, Stopped, open};
use std::alloc::{AllocError, Global};
use std::io::{ErrorKind, Read};
use text_tables::Clock;

/// Where the files of the time zones are, each by the zone's name.
const ZONES: &str = "/usr/share/zoneinfo/";

/// The most bytes of a time zone's file. Those of the Time Zone Database have a few thousand.
const MAX_ZONE_BYTES: u64 = 1_048_576;

/// A time zone that was read, by its name, and the bytes of its file; none for UTC.
#[derive(Drop)]
pub struct ZoneFile<'a> {
    database: TimeZoneDatabase,
    name: Option<&'a str>,
    bytes: Vec<u8>,
}

/// The time zone of a name, from its file; UTC where none is asked for. Refused with `OpenFailed` (93) where there is no such file,
/// where it couldn't be read, or where it has no time zone, else only with `OutOfMemory` (1).
pub fn read_zone<'a, R: FileSystem + AllocGlobal>(
    rt: &R,
    name: Option<&'a str>,
) -> Result<ZoneFile<'a>, Stopped>
    ensures zone { IfOk result (IsReadFor (option_map (λ text. text.now) name.entry)) }
    ensures bytes { IfOk result (λ zone. AreZoneBytes (R.bytes_at rt.now) (option_map (λ text. text.now) name.entry) zone.bytes.items) }
    ensures refused { IfErr result (λ stopped. IsNoClock stopped.stop) }
{
    let Some(name) = name else {
        return Ok(ZoneFile {
            database: TimeZoneDatabase::new(rt.alloc()),
            name: None,
            bytes: Vec::new(rt.alloc()),
        });
    };
    let Ok(path) = path_of(rt.alloc(), name) else {
        return Err(Stopped::from(Stop::OutOfMemory));
    };
    let bytes = read_file(rt, path.as_str())?;
    match zone_of(rt.alloc(), name, bytes) {
        Ok(zone) => Ok(zone),
        Err(error) => Err(no_zone(rt.alloc(), path.as_str(), &error)),
    }
}

/// The time zone of a name, from the bytes of its file.
fn zone_of<'a>(alloc: Global, name: &'a str, bytes: Vec<u8>) -> Result<ZoneFile<'a>, Error>
    ensures zone { IfOk result (IsReadFor (Some name.now)) }
    ensures bytes { IfOk result (λ zone. zone.bytes ≡ bytes) }
{
    let mut database = TimeZoneDatabase::new(alloc);
    match database.insert(name, &bytes) {
        Ok(()) => Ok(ZoneFile {
            database,
            name: Some(name),
            bytes,
        }),
        Err(error) => Err(error),
    }
}

/// That a file has no time zone.
fn no_zone(alloc: Global, path: &str, error: &Error) -> Stopped
    ensures stop { result.stop ≡ stop_for error.now }
    ensures no_clock { IsNoClock result.stop }
{
    Stopped::told(
        stop_of(error),
        file_text(alloc, path, "it has no time zone"),
    )
}

/// Why a time zone could not be had.
fn stop_of(error: &Error) -> Stop
    ensures stop { result ≡ stop_for error.now }
    ensures no_clock { IsNoClock result }
{
    match error {
        Error::OutOfMemory => Stop::OutOfMemory,
        _ => Stop::OpenFailed,
    }
}

/// The bytes of a time zone's file.
fn read_file<R: FileSystem + AllocGlobal>(rt: &R, path: &str) -> Result<Vec<u8>, Stopped>
    ensures bytes { IfOk result (λ bytes. IfSome (R.bytes_at rt.now path.now) (λ known. bytes.items ≡ take max_zone_bytes known)) }
    ensures refused { IfErr result (λ stopped. IsNoClock stopped.stop) }
{
    let mut bytes = Vec::new(rt.alloc());
    match open(rt, path)?.take(MAX_ZONE_BYTES).read_to_end(&mut bytes) {
        Ok(_) => Ok(bytes),
        Err(error) if error.kind() == ErrorKind::OutOfMemory => {
            Err(Stopped::from(Stop::OutOfMemory))
        }
        Err(_) => {
            let text = file_text(rt.alloc(), path, "it couldn't be read");
            Err(Stopped::told(Stop::OpenFailed, text))
        }
    }
}

/// The path of a time zone's file.
fn path_of(alloc: Global, name: &str) -> Result<String, AllocError>
    ensures { IfOk result (λ path. string_bytes path ≡ zone_path name.now) }
{
    let mut path = String::from_str(alloc, ZONES)?;
    path.push_str(name)?;
    Ok(path)
}

/// How moments are shown in a time zone.
pub(crate) fn clock_of<'a>(zone: &'a ZoneFile<'_>) -> Result<Clock<'a>, Stop>
    requires { HasZoneFor zone.now.database (name_of zone.now) zone.now.bytes.items }
    ensures clock { IfOk result (IsClockFor (name_of zone.now) zone.now.bytes.items) }
    ensures refused { IfErr result IsNoClock }
{
    let Some(name) = zone.name else {
        return Ok(Clock { zone: None });
    };
    match zone.database.get(name) {
        Ok(found) => Ok(Clock { zone: Some(found) }),
        Err(error) => Err(stop_of(&error)),
    }
}
