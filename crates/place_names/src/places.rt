//! Places with their names and where they lie.
ghost use Rattle.std.specs.Prelude.{◌≡◌, ◌++◌, ◌∷◌, [], IfOk, OnOk, option_map, string_bytes};
ghost use Rattle.place_names.specs.Names.{known_of, name_of, name_word};
ghost use Rattle.place_names.specs.Reading.{has_place};

use crate::NamedPlace;
use rail_codes::Place;
use std::alloc::{AllocError, Global};
use std::marker::Model;

/// Places with their names and where they lie, at most 2,000, in the order of their file. A contract sees them as a list.
#[derive(Drop)]
pub struct Places {
    places: Vec<NamedPlace>,
}

impl Model for Places {
    ghost use Rattle.std.specs.Prelude.{List};
    ghost use Rattle.place_names.specs.declared.named_place.NamedPlace.{NamedPlace};

    ghost Value = { List NamedPlace };

    ghost view = { λ places. places.places.items };
}

impl Places {
    /// No place.
    pub fn empty(alloc: Global) -> Places
        ensures { result ≡ [] }
    {
        Places {
            places: Vec::new(alloc),
        }
    }

    /// Where more places would be kept.
    pub(crate) fn allocator(&self) -> Global {
        *self.places.allocator()
    }

    /// The places with one more.
    pub(crate) fn with_place(self, named: NamedPlace) -> Result<Places, AllocError>
        ensures { IfOk result (λ places. places ≡ self ++ named ∷ []) }
    {
        let Places { mut places } = self;
        places.push(named)?;
        Ok(Places { places })
    }

    /// The places in the order of their file.
    pub fn as_slice(&self) -> &[NamedPlace]
        ensures { result.now ≡ self.now }
    {
        &self.places
    }

    /// Whether one of them is this place.
    pub(crate) fn has(&self, place: Place) -> bool
        ensures { result ≡ has_place self.now place }
    {
        self.places.iter().any(|named| named.place == place)
    }

    /// The first that is this place; no two are one place.
    pub fn find(&self, place: Place) -> Option<&NamedPlace>
        ensures { option_map (λ named. named.now) result ≡ known_of self.now place }
    {
        self.places.iter().find(|named| named.place == place)
    }

    /// A place's name; nothing where it has none.
    pub fn name_of(&self, place: Place) -> &str
        ensures { result.now ≡ name_of self.now place }
    {
        match self.find(place) {
            Some(named) => named.name.as_str(),
            None => "",
        }
    }

    /// Adds a place's name behind what stands there, after a space, if it has one. `Err` only when out of memory; the space may
    /// be there then.
    pub fn push_name(&self, text: &mut String, place: Place) -> Result<(), AllocError>
        ensures { OnOk result (string_bytes text.new ≡ string_bytes text.old ++ name_word (name_of self.now place)) }
    {
        let name = self.name_of(place);
        if name.is_empty() {
            return Ok(());
        }
        text.push_str(" ")?;
        text.push_str(name)
    }
}
