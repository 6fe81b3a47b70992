//! A file's seat.
ghost use Rattle.std.specs.Prelude.{◌≡◌};

use crate::refused_wagons::RefusedWagons;
use crate::{BookLedger, Seat};
use line_network::Networks;

/// A file's seat, how many of its lines were answered without an entry, the wagons of its messages that the status table refused,
/// and the networks over which its plans are made, which are those of the shared book.
#[derive(Drop)]
pub(crate) struct FileSeat<'a, L: BookLedger> {
    pub(crate) networks: &'a Networks,
    pub(crate) seat: Seat<L>,
    pub(crate) repeated: u64,
    pub(crate) refused: u64,
    pub(crate) out_of_step: RefusedWagons,
    ghost over: { networks.now ≡ L.setting.networks },
}
