//! A network: its places and its lines.
ghost use Rattle.std.specs.Prelude.{◌≡◌, ◌≢◌, ◌+◌, ◌≤◌, ◌++◌, ℕ, IfErr, IfNone, IfOk, IfSome, OnOk, length, slice_get};
ghost use Rattle.line_network.specs.NetworkLimits.{IsNetwork, max_network_lines, max_places};
ghost use Rattle.line_network.specs.Network.{place_index};
ghost use Rattle.csv_records.specs.Reading.{Gives};
ghost use Rattle.line_network.specs.Reading.{is_failure, lines_between, no_network, number_of, with_place, with_record};
ghost use Rattle.line_network.specs.inner.Reading.{HasLengths, RefusesPlace};

use crate::limits::MAX_PLACES;
use crate::line_record::{LineRecord, Way};
use crate::{Line, NetworkFault};
use indexmap::IndexSet;
use rail_codes::Place;
use std::alloc::{AllocError, Global};
use std::marker::Model;

/// The places and lines of a rail network. A place goes by its number, from 0, in the order in which the
/// records named it. A contract sees the places as texts, and the lines.
pub struct Network {
    places: IndexSet<Place>,
    lines: Vec<Line>,
}

// Written out, it is proved here once; a derived one, in each crate that drops a value.
impl Drop for Network {
    fn drop(self) {
        let Network {
            places: _,
            lines: _,
        } = self;
    }
}

impl Model for Network {
    ghost use Rattle.line_network.specs.Network.{NetworkValue};
    ghost use Rattle.line_network.specs.NetworkLimits.{IsNetwork};

    ghost Value = { NetworkValue };

    ghost view = { λ network. record { places = network.places.keys; lines = network.lines.items } };

    ghost invariant = { λ network. IsNetwork (record { places = network.places.keys; lines = network.lines.items }) };
}

impl Network {
    /// No place and no line.
    pub(crate) fn empty(alloc: Global) -> Network
        ensures { result ≡ no_network }
    {
        Network {
            places: IndexSet::new(alloc),
            lines: Vec::new(alloc),
        }
    }

    /// The network with the lines of one more record. It is dropped where its places would be too many, with
    /// `TooManyPlaces`, and where the program is out of memory.
    pub(crate) fn with_line_record(self, read: &LineRecord) -> Result<Network, NetworkFault>
        requires room { length self.lines + 2 ≤ max_network_lines }
        requires lengths { HasLengths read.now }
        ensures meaning { Gives is_failure result (with_record self read.now) }
        ensures no_reader { IfErr result (λ fault. fault ≢ NetworkFault.ReadFailed) }
        ensures longer { IfOk result (λ network. length network.lines ≤ length self.lines + 2) }
    {
        let Network {
            mut places,
            mut lines,
        } = self;
        let from = place_number(&mut places, read.from)?;
        let to = place_number(&mut places, read.to)?;
        add_lines(&mut lines, from, to, read)?;
        Ok(Network { places, lines })
    }

    /// How many places there are, at most 2,000.
    pub fn places(&self) -> usize
        ensures count { result ≡ length self.now.places }
        ensures network { IsNetwork self.now }
    {
        self.places.len()
    }

    /// The place of a number, `None` past the last.
    pub fn place_at(&self, k: usize) -> Option<Place>
        ensures place { result ≡ slice_get self.now.places k }
        ensures network { IsNetwork self.now }
    {
        self.places.get_index(k).copied()
    }

    /// The number of a place, `None` where no record names it.
    pub fn index_of(&self, place: Place) -> Option<usize>
        ensures index { result ≡ place_index self.now.places place }
        ensures known { IfSome result (λ k. slice_get self.now.places k ≡ Some place) }
        ensures unknown { IfNone result ((k : ℕ) → slice_get self.now.places k ≢ Some place) }
        ensures network { IsNetwork self.now }
    {
        self.places.get_index_of(&place)
    }

    /// The lines in the order of their records. Of a record that is run both ways the line back stands after
    /// the line.
    pub fn lines(&self) -> &[Line]
        ensures lines { result.now ≡ self.now.lines }
        ensures network { IsNetwork self.now }
    {
        &self.lines
    }

    /// An equal network.
    pub fn copy(&self, alloc: Global) -> Result<Network, AllocError>
        ensures { IfOk result (λ copy. copy ≡ self.now) }
    {
        let places = self.places.clone()?;
        let lines = Vec::from_slice(alloc, self.lines())?;
        Ok(Network { places, lines })
    }
}

/// The number of a place, which is added where it is new.
fn place_number(places: &mut IndexSet<Place>, place: Place) -> Result<usize, NetworkFault>
    ensures number { IfOk result (λ k. k ≡ number_of places.new.keys place) }
    ensures added { OnOk result (places.new.keys ≡ with_place places.old.keys place) }
    ensures room { OnOk result (length places.old.keys ≤ max_places → length places.new.keys ≤ max_places) }
    ensures refused { IfErr result (λ fault. RefusesPlace fault (with_place places.old.keys place)) }
{
    if let Some(number) = places.get_index_of(&place) {
        return Ok(number);
    }
    if places.len() >= MAX_PLACES {
        return Err(NetworkFault::TooManyPlaces);
    }
    let (number, _added) = places.insert_full(place)?;
    Ok(number)
}

/// Adds the lines of a record between places of these numbers.
fn add_lines(
    lines: &mut Vec<Line>,
    from: usize,
    to: usize,
    read: &LineRecord,
) -> Result<(), NetworkFault>
    ensures added { OnOk result (lines.new.items ≡ lines.old.items ++ lines_between from to read.now) }
    ensures refused { IfErr result (λ fault. fault ≡ NetworkFault.OutOfMemory) }
{
    let line = Line {
        from,
        to,
        km: read.km,
        minutes: read.minutes,
    };
    lines.push(line)?;
    if read.way == Way::Both {
        lines.push(line.back())?;
    }
    Ok(())
}
