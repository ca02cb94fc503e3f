//! Chains of gating cells, from the clock on.

ghost use Rattle.std.specs.Prelude.{◌≡◌, IfOk};
ghost use Rattle.cg_netlist.specs.Chains.{chain, chain_cell, gater_order};

use crate::levels::walk_order;
use crate::netlist::Netlist;
use crate::parts::{Gater, Logic, LogicFunction};
use cg_net::id::{CellId, GateClockId};
use smallvec::SmallVec;
use std::alloc::{AllocError, Global};

impl Netlist {
    /// The gating cells along their chains, each behind the one that drives its clock pin: by rank, and those of one
    /// rank by number. It takes time linear in the netlist.
    pub fn gater_order(&self, alloc: Global) -> Result<Vec<GateClockId>, AllocError>
        ensures { IfOk result (λ order. order.items ≡ gater_order self.now.gaters) }
    {
        let chain = chain_of(alloc, self.gating())?;
        let order = walk_order(alloc, self.nets() as usize, &chain)?;
        as_gaters(alloc, &order)
    }
}

/// Gating cells as cells over their clock pins alone.
pub fn chain_of(alloc: Global, gaters: &[Gater]) -> Result<Vec<Logic>, AllocError>
    ensures { IfOk result (λ cells. cells.items ≡ chain gaters.now) }
{
    let mut cells = Vec::with_capacity(alloc, gaters.len())?;
    for gater in gaters {
        cells.push(chain_cell(alloc, gater)?)?;
    }
    Ok(cells)
}

/// A gating cell as a cell over its clock pin alone.
fn chain_cell(alloc: Global, gater: &Gater) -> Result<Logic, AllocError>
    ensures { IfOk result (λ cell. cell ≡ chain_cell gater.now) }
{
    Ok(Logic {
        inputs: SmallVec::from_slice(alloc, &[gater.clock])?,
        output: gater.output,
        function: LogicFunction::Cell(gater.cell.clone()?),
    })
}

/// The gating cells of these numbers.
fn as_gaters(alloc: Global, cells: &[CellId]) -> Result<Vec<GateClockId>, AllocError>
    ensures { IfOk result (λ gaters. gaters.items ≡ cells.now) }
{
    let mut gaters = Vec::with_capacity(alloc, cells.len())?;
    for cell in cells {
        gaters.push(GateClockId::new(cell.number()))?;
    }
    Ok(gaters)
}
