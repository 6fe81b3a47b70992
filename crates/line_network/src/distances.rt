//! The distances of a network.
ghost use Rattle.std.specs.Prelude.{◌≡◌, ◌<◌, ◌≤◌, IfSome, IfNone, length};
ghost use Rattle.line_network.specs.Distance.{IsDistance};
ghost use Rattle.line_network.specs.DistanceAnswers.{AreNumbersAnswered, HasNoWalk, max_distance};

use crate::Network;
use crate::length::Length;
use rail_codes::Place;
use std::marker::Model;

/// The distances between the places of a network, which is kept with them. A contract sees the network.
pub struct Tables {
    pub(crate) network: Network,
    // by the number of the place where a walk ends, then by that of the place where it begins: what many wagons have to one
    // order lies side by side
    pub(crate) rows: Vec<Vec<Length>>,
}

// Written out, it is proved here once; a derived one, in each crate that drops a value.
impl Drop for Tables {
    fn drop(self) {
        let Tables {
            network: _,
            rows: _,
        } = self;
    }
}

impl Model for Tables {
    ghost use Rattle.std.specs.Prelude.{◌≤◌, length};
    ghost use Rattle.line_network.specs.Network.{NetworkValue};
    ghost use Rattle.line_network.specs.NetworkLimits.{max_places};
    ghost use Rattle.line_network.specs.inner.Rows.{AreRows};
    ghost use Rattle.line_network.specs.inner.Turned.{turned_lines};

    ghost Value = { NetworkValue };

    ghost view = { λ tables. tables.network };

    ghost invariant = { λ tables. (length tables.network.places ≤ max_places) × AreRows (turned_lines tables.network.lines) (length tables.network.places) tables.rows.items };
}

impl Tables {
    /// The network whose distances these are.
    pub fn network(&self) -> &Network
        ensures { result.now ≡ self.now }
    {
        &self.network
    }

    /// The distance from a place to a place: the kilometres and minutes of the walk with the fewest
    /// kilometres, and with the fewest minutes among those. `None` where no walk leads from `a` to `b`, so
    /// wherever one of them is no place of the network; a place of the network is at (0, 0) from itself.
    pub fn between(&self, a: Place, b: Place) -> Option<(u32, u32)>
        ensures distance { IfSome result (IsDistance self.now a b) }
        ensures none { IfNone result (HasNoWalk self.now a b) }
        ensures limit { IfSome result (λ d. (d.0 ≤ max_distance) × (d.1 ≤ max_distance)) }
    {
        let from = self.network.index_of(a)?;
        let to = self.network.index_of(b)?;
        self.between_numbers(from, to)
    }

    /// The same for the places of these numbers of the network.
    pub fn between_numbers(&self, from: usize, to: usize) -> Option<(u32, u32)>
        requires from { from < length self.now.places }
        requires to { to < length self.now.places }
        ensures meaning { AreNumbersAnswered self.now from to result }
        ensures limit { IfSome result (λ d. (d.0 ≤ max_distance) × (d.1 ≤ max_distance)) }
    {
        self.rows[to][from].pair()
    }
}
