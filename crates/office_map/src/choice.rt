//! What of an office is to be on its map.
ghost use Rattle.std.specs.Prelude.{◌≡◌, false, None};

use rail_codes::{ClassCode, OrderId};

/// What of an office is to be on its map. `Choice::all` has everything.
#[derive(Clone, Copy)]
pub struct Choice {
    /// Whether places with no wagon and no order on the map are left out, with the lines that lead there.
    pub busy: bool,
    /// The order that is shown alone, with the wagons promised to it.
    pub order: Option<OrderId>,
    /// The class whose wagons are shown alone, with the orders that accept it.
    pub class: Option<ClassCode>,
}

impl Choice {
    /// Everything.
    pub fn all() -> Choice
        ensures { result ≡ record { busy = false; order = None; class = None } }
    {
        Choice {
            busy: false,
            order: None,
            class: None,
        }
    }
}
