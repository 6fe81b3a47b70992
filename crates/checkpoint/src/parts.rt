//! What the lines of a checkpoint say that were read so far.
ghost use Rattle.std.specs.Prelude.{◌≡◌};
ghost use Rattle.checkpoint.specs.Parts.{no_parts};

use fleet_rows::OrderRows;
use std::alloc::Global;
use std::marker::Model;
use wagons_and_orders::WagonRow;

/// What the lines of a checkpoint say that were read so far. A contract sees it as a record of the definitions.
#[derive(Drop)]
pub(crate) struct Parts {
    /// The network in force, once the head was read.
    pub(crate) network: Option<u32>,
    /// The wagons so far, ascending by number.
    pub(crate) wagons: Vec<WagonRow>,
    /// The orders so far.
    pub(crate) orders: OrderRows,
    /// Whether the last line was read.
    pub(crate) ended: bool,
}

impl Model for Parts {
    ghost use Rattle.checkpoint.specs.Parts.{PartsValue};

    ghost Value = { PartsValue };

    ghost view = { λ parts. record { network = parts.network; wagons = parts.wagons.items; orders = parts.orders; ended = parts.ended } };
}

impl Parts {
    /// Before the first line.
    pub(crate) fn new(alloc: Global) -> Parts
        ensures { result ≡ no_parts }
    {
        Parts {
            network: None,
            wagons: Vec::new(alloc),
            orders: OrderRows::new(alloc),
            ended: false,
        }
    }
}
