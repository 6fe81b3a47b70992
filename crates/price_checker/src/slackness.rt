//! What a plan costs whose prices are known to be its certificate: prices tell it, and no cell is read.
ghost use Rattle.std.specs.Prelude.{◌≡◌};
ghost use Rattle.cost_table.specs.Plan.{cost_of, pair_cost};
ghost use Rattle.price_checker.specs.Certificate.{IsCertificate};
ghost use Rattle.price_checker.specs.Tight.{IsTight};

use crate::Prices;
use crate::checker::{paid_by_orders, total};
use cost_table::Cells;

/// The cost of a plan in kilometres, where these prices are its certificate: what the orders pay, less all wagons' prices. The
/// pairs are for the prover alone.
pub fn certified_cost(cells: &Cells, _pairs: &[(usize, usize)], prices: &Prices) -> u128
    requires { IsCertificate cells.now _pairs.now prices.now.u.items prices.now.v.items }
    ensures { result ≡ cost_of cells.now _pairs.now }
{
    // The prices of a table are few.
    cells.for_the_prover();
    paid_by_orders(cells, &prices.v) - total(&prices.u)
}

/// The cost of a pair of such a plan in kilometres: its order's price, less its wagon's. The table is for the prover alone.
pub fn certified_pair_cost(_cells: &Cells, pair: (usize, usize), prices: &Prices) -> u64
    requires { IsTight _cells.now prices.now.u.items prices.now.v.items pair }
    ensures { result ≡ pair_cost _cells.now pair }
{
    prices.v[pair.1] - prices.u[pair.0]
}
