//! Several networks, by their numbers.
ghost use Rattle.std.specs.Prelude.{◌≡◌, ◌↔◌, length, vec_len, IsOk, IfOk, Err};
ghost use Rattle.std.specs.Option.{option_copied};
ghost use Rattle.line_network.specs.NetworkCount.{IsNetworkCount};
ghost use Rattle.line_network.specs.Networks.{network_at};

use crate::{NetworksFault, Tables};
use std::marker::Model;

/// The most networks.
pub const MAX_NETWORKS: u32 = 8;

/// The networks that a book may run on, 1 to 8, each with its distances and numbered from 1. A contract sees
/// the list of the networks.
pub struct Networks {
    tables: Vec<Tables>,
}

// Written out, it is proved here once; a derived one, in each crate that drops a value.
impl Drop for Networks {
    fn drop(self) {
        let Networks { tables: _ } = self;
    }
}

impl Model for Networks {
    ghost use Rattle.std.specs.Prelude.{List, length};
    ghost use Rattle.line_network.specs.Network.{NetworkValue};
    ghost use Rattle.line_network.specs.NetworkCount.{IsNetworkCount};

    ghost Value = { List NetworkValue };

    ghost view = { λ networks. networks.tables.items };

    ghost invariant = { λ networks. IsNetworkCount (length networks.tables.items) };
}

impl Networks {
    /// The networks of these tables, in their order. Refused with `BadNetworkCount` (47), and the tables are
    /// dropped, where there are none or more than 8.
    pub fn new(tables: Vec<Tables>) -> Result<Networks, NetworksFault>
        ensures accepts { IsOk result ↔ IsNetworkCount (length tables.items) }
        ensures kept { IfOk result (λ networks. networks ≡ tables.items) }
    {
        if tables.is_empty() || tables.len() > MAX_NETWORKS as usize {
            return Err(NetworksFault::BadNetworkCount);
        }
        Ok(Networks { tables })
    }

    /// How many networks there are, 1 to 8.
    pub fn count(&self) -> u32
        ensures count { result ≡ length self.now }
        ensures range { IsNetworkCount result }
    {
        self.tables.len() as u32
    }

    /// Does nothing: for the prover alone, it says how many networks there are.
    pub fn for_the_prover(&self)
        ensures { IsNetworkCount (length self.now) }
    {
        let _ = &self.tables;
    }

    /// The tables of a network by its number; `None` for 0 and past the last.
    pub fn get(&self, k: u32) -> Option<&Tables>
        ensures { option_copied result ≡ network_at self.now k }
    {
        let index = k.checked_sub(1)?;
        self.tables.get(index as usize)
    }
}
