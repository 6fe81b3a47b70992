//! The lines of a checkpoint, as they are read.
ghost use Rattle.std.specs.Prelude.{◌≡◌};

use move_messages::OrderText;
use rail_codes::WagonNumber;
use std::marker::Model;
use wagons_and_orders::WagonRow;

/// A line of a checkpoint.
#[derive(Drop)]
pub enum CheckpointLine {
    /// The first line, with the number of the network in force.
    Head(u32),
    /// A wagon's row.
    Wagon(WagonRow),
    /// An open order.
    Order(OrderLine),
    /// The last line, with the number of the others.
    End(u64),
}

/// An open order: as placed, the wagons promised to it, and those that filled it. A contract sees a
/// record of the definitions.
#[derive(Drop)]
pub struct OrderLine {
    text: OrderText,
    promised: Vec<WagonNumber>,
    filled: Vec<WagonNumber>,
}

impl Model for OrderLine {
    ghost use Rattle.checkpoint.specs.OrderLine.{OrderLineValue};

    ghost Value = { OrderLineValue };

    ghost view = { λ line. record { text = line.text; promised = line.promised.items; filled = line.filled.items } };
}

impl OrderLine {
    /// What such a line says.
    pub(crate) fn new(
        text: OrderText,
        promised: Vec<WagonNumber>,
        filled: Vec<WagonNumber>,
    ) -> OrderLine
        ensures { result ≡ record { text = text; promised = promised.items; filled = filled.items } }
    {
        OrderLine {
            text,
            promised,
            filled,
        }
    }

    /// The order as placed.
    pub fn text(&self) -> &OrderText
        ensures { result.now ≡ self.now.text }
    {
        &self.text
    }

    /// The wagons promised to it.
    pub fn promised(&self) -> &[WagonNumber]
        ensures { result.now ≡ self.now.promised }
    {
        &self.promised
    }

    /// The wagons that filled it.
    pub fn filled(&self) -> &[WagonNumber]
        ensures { result.now ≡ self.now.filled }
    {
        &self.filled
    }
}
