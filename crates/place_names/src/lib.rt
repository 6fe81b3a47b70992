//! The names of places and where they lie, read from a table in CSV.
#![tactic(auto)]

mod limits;
mod named_place;
mod place_record;
mod places;
mod places_fault;
mod reading;
mod value;

pub use named_place::{Coordinates, Decimal, NamedPlace, PlaceName};
pub use places::Places;
pub use places_fault::PlacesFault;
