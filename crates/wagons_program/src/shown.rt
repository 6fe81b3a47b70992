//! An office as the lines of an input left it, with the names of places and the time zone by which its text is shown.
ghost use Rattle.std.specs.Prelude.{IfOk, List, None, option_map, ℕ};
ghost use Rattle.last_texts.specs.ZoneClock.{AreZoneBytes, IsReadFor};
ghost use Rattle.line_network.specs.Network.{NetworkValue};
ghost use Rattle.office_files.specs.PlacesFor.{ArePlacesAt};
ghost use Rattle.wagons_program.specs.Brought.{IsBroughtTo};
ghost use Rattle.wagons_program.specs.Streams.{streams};

use crate::bringing::{Brought, bring_without_output};
use command_line::OfficeOptions;
use commit_book::Book;
use last_texts::{ZoneFile, read_zone};
use office_files::{FileSystem, Stopped, read_places};
use place_names::Places;
use std::io::Read;
use std::sync::Wait;
use std::thread::Threads;

/// An office as the lines of an input left it, and what its text is shown with.
#[derive(Drop)]
pub(crate) struct Shown<'a> {
    pub(crate) book: Book,
    pub(crate) places: Places,
    pub(crate) zone: ZoneFile<'a>,
}

/// Reads the names of places and a time zone, opens an office, and brings the command lines of an input to it without replies.
pub(crate) fn bring_shown<'a, R: FileSystem + Threads + Wait + AllocGlobal, I: Read + Drop>(
    rt: &R,
    office: &OfficeOptions<'_>,
    places: Option<&str>,
    zone: Option<&'a str>,
    input: I,
) -> Result<Shown<'a>, Stopped>
    ensures places { IfOk result (λ shown. ArePlacesAt (R.bytes_at rt.now) (option_map (λ text. text.now) places.entry) shown.places) }
    ensures zone { IfOk result (λ shown. IsReadFor (option_map (λ text. text.now) zone.entry) shown.zone) }
    ensures bytes { IfOk result (λ shown. AreZoneBytes (R.bytes_at rt.now) (option_map (λ text. text.now) zone.entry) shown.zone.bytes.items) }
    ensures brought { IfOk result (λ shown. (networks : List NetworkValue) × (refused : ℕ) × IsBroughtTo (R.bytes_at rt.now) office.now networks (streams (I.remaining input) None None) shown.book refused) }
{
    let places = read_places(rt, places)?;
    let zone = read_zone(rt, zone)?;
    let Brought {
        book,
        networks: _,
        status: _,
    } = bring_without_output(rt, office, input)?;
    Ok(Shown { book, places, zone })
}
