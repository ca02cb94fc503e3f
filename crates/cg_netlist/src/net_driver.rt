//! Which logic cell drives each net.

ghost use Rattle.std.specs.Prelude.{◌≡◌, ◌<◌, ℕ, Some, length, All, IfOk, unwrap_or};
ghost use Rattle.cg_netlist.specs.inner.Ranking.{entry};
ghost use Rattle.cg_netlist.specs.Ranks.{driving_cell};

use crate::parts::Logic;
use std::alloc::{AllocError, Global};

/// For each of `count` nets the first logic cell that drives it, if one does.
pub(crate) fn net_drivers(
    alloc: Global,
    count: usize,
    cells: &[Logic],
) -> Result<Vec<Option<usize>>, AllocError>
    requires { All (λ cell. cell.output < count) cells.now }
    ensures fits { IfOk result (λ drivers. length drivers.items ≡ count) }
    ensures tells { IfOk result (λ drivers. (net : ℕ) → net < count → entry drivers.items net ≡ driving_cell cells.now net) }
{
    let mut drivers = vec![in alloc; None; count]?;
    for i in 0..cells.len() {
        let cell = &cells[i];
        let net = cell.output.number() as usize;
        drivers[net] = first(drivers[net], i);
    }
    Ok(drivers)
}

/// The first of a driver that was found before and one that is found now.
fn first(before: Option<usize>, now: usize) -> Option<usize>
    ensures { result ≡ Some (unwrap_or before now) }
{
    match before {
        Some(driver) => Some(driver),
        None => Some(now),
    }
}

/// The entry of a table at a place.
pub(crate) fn entry(table: &[Option<usize>], place: usize) -> Option<usize>
    requires { place < length table.now }
    ensures { result ≡ entry table.now place }
{
    table[place]
}
