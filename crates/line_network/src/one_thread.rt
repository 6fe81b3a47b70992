//! The tables of a network, made by one thread.
ghost use Rattle.std.specs.Prelude.{◌≡◌, ◌+◌, ◌≤◌, All, IfOk, vec_len};
ghost use Rattle.line_network.specs.NetworkLimits.{IsLine, max_places};
ghost use Rattle.line_network.specs.inner.Rows.{AreRows};

use crate::gate::Entered;
use crate::length::Length;
use crate::lines_by_origin::{LinesByOrigin, turned_lines};
use crate::search::row_of_origin;
use crate::{Network, OpenGate, Tables};
use std::alloc::{AllocError, Global};

/// The distances between the places of a network. The lines are turned round, since the tables have the walks to
/// a place side by side.
pub fn tables(alloc: Global, net: &Network) -> Result<Tables, AllocError>
    ensures { IfOk result (λ tables. tables ≡ net.now) }
{
    let places = net.places();
    let lines = LinesByOrigin::new(alloc, turned_lines(alloc, net.lines())?, places)?;
    let rows = rows_of_origins(alloc, &lines, places)?;
    let network = net.copy(alloc)?;
    Ok(Tables { network, rows })
}

/// The row of each place.
fn rows_of_origins(
    alloc: Global,
    lines: &LinesByOrigin,
    places: usize,
) -> Result<Vec<Vec<Length>>, AllocError>
    requires few { places ≤ max_places }
    requires indexed { vec_len lines.now.starts ≡ places + 1 }
    requires lines { All (IsLine places) lines.now.lines.items }
    ensures { IfOk result (λ rows. AreRows lines.now.lines.items places rows.items) }
{
    let mut rows = Vec::with_capacity(alloc, places)?;
    for origin in 0..places {
        let entered = Entered::through(&OpenGate, origin);
        rows.push(row_of_origin(alloc, lines, places, entered)?)?;
    }
    Ok(rows)
}
