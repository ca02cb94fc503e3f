//! The ranks of logic cells, and which nets those without one drive.

ghost use Rattle.std.specs.Prelude.{◌≡◌, ◌<◌, ℕ, Some, false, length, IfOk, is_none};
ghost use Rattle.std.specs.List.{AllByRecursion};
ghost use Rattle.std.specs.Option.{option_map_or};
ghost use Rattle.cg_net.specs.Marks.{AreMarksOf};
ghost use Rattle.cg_netlist.specs.Places.{CellWithin};
ghost use Rattle.cg_netlist.specs.inner.Ranking.{entry};
ghost use Rattle.cg_netlist.specs.Ranks.{is_unranked, ranks_of};

use crate::net_driver::{entry, net_drivers};
use crate::parts::Logic;
use crate::ranks::ranks;
use std::alloc::{AllocError, Global};

/// The rank of each of these logic cells over `count` nets; `None` for those whose cone holds a cycle of cells.
pub fn cell_ranks(
    alloc: Global,
    count: usize,
    cells: &[Logic],
) -> Result<Vec<Option<usize>>, AllocError>
    requires { AllByRecursion (CellWithin count) cells.now }
    ensures { IfOk result (λ ranks. ranks.items ≡ ranks_of cells.now) }
{
    let drivers = net_drivers(alloc, count, cells)?;
    ranks(alloc, cells, &drivers)
}

/// Of `count` nets, marks on those whose first driving cell has no rank, since its cone holds a cycle of cells.
pub fn unranked_marks(
    alloc: Global,
    count: usize,
    cells: &[Logic],
    ranks: &[Option<usize>],
) -> Result<Vec<bool>, AllocError>
    requires cells { AllByRecursion (CellWithin count) cells.now }
    requires ranks { ranks.now ≡ ranks_of cells.now }
    ensures { IfOk result (λ marks. AreMarksOf marks.items count (is_unranked cells.now)) }
{
    let drivers = net_drivers(alloc, count, cells)?;
    unranked(alloc, &drivers, ranks)
}

/// Marks on the nets whose first driving cell has no rank.
fn unranked(
    alloc: Global,
    drivers: &[Option<usize>],
    ranks: &[Option<usize>],
) -> Result<Vec<bool>, AllocError>
    requires { (net k : ℕ) → entry drivers.now net ≡ Some k → k < length ranks.now }
    ensures { IfOk result
        (λ marks. AreMarksOf marks.items (length drivers.now) (λ net. option_map_or (λ k. is_none (entry ranks.now k)) (entry drivers.now net) false)) }
{
    let mut marks = Vec::with_capacity(alloc, drivers.len())?;
    for net in 0..drivers.len() {
        marks.push(is_unranked(entry(drivers, net), ranks))?;
    }
    Ok(marks)
}

/// Whether a net's driver is a cell without a rank.
fn is_unranked(driver: Option<usize>, ranks: &[Option<usize>]) -> bool
    requires { (k : ℕ) → driver ≡ Some k → k < length ranks.now }
    ensures { result ≡ option_map_or (λ k. is_none (entry ranks.now k)) driver false }
{
    match driver {
        Some(cell) => ranks[cell].is_none(),
        None => false,
    }
}
