//! What finds pairs of a wagon and an order by their names.
ghost use Rattle.std.specs.Prelude.{◌≡◌, slice_get};
ghost use Rattle.cost_table.specs.Names.{NameLists, pair_of};

use rail_codes::{OrderId, WagonNumber};

/// Wagons and orders by name, each at a position. A contract sees the two lists of names.
pub trait PairNames {
    ghost names: { Self → NameLists };

    /// Where a wagon and an order stand, `None` where one of them is not named.
    fn pair_of(&self, number: WagonNumber, id: OrderId) -> Option<(usize, usize)>
        ensures { result ≡ pair_of (names self.now) number id };

    /// The wagon at a position, `None` past the end.
    fn wagon_at(&self, i: usize) -> Option<WagonNumber>
        ensures { let lists = names self.now in result ≡ slice_get lists.wagons i };

    /// The order at a position, `None` past the end.
    fn order_at(&self, j: usize) -> Option<OrderId>
        ensures { let lists = names self.now in result ≡ slice_get lists.orders j };
}
