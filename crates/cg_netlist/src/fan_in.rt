//! The logic cells that drive the inputs of each logic cell.

ghost use Rattle.std.specs.Prelude.{◌≡◌, ◌++◌, ◌<◌, [], map, length, get_or, All, IfOk, OnOk};
ghost use Rattle.std.specs.Option.{option_to_list};
ghost use Rattle.cg_netlist.specs.inner.Ranking.{IsGraph, drivers_at};

use crate::net_driver::entry;
use crate::parts::Logic;
use cg_net::id::NetId;
use std::alloc::{AllocError, Global};
use std::marker::Model;

/// For each logic cell those that drive its inputs, in the order of the inputs.
///
/// Clauses see the list of these lists. In memory all stand in one, those of a cell behind those of the cell before, so that a
/// search that goes from cell to cell stays in little memory.
#[derive(Drop)]
pub(crate) struct FanIn {
    cells: Vec<usize>,
    /// Where the part of each cell begins, and behind these where the last ends.
    starts: Vec<usize>,
}

impl Model for FanIn {
    ghost use Rattle.std.specs.Prelude.{List, ℕ, length};
    ghost use Rattle.cg_netlist.specs.inner.CutAt.{cut_at, EndsAt};

    ghost Value = { List (List ℕ) };

    ghost view = { λ f. cut_at f.starts.items f.cells.items };

    ghost invariant = { λ f. EndsAt (length f.cells.items) f.starts.items };
}

impl FanIn {
    /// The cells that drive the inputs of these, by the cell that drives each net.
    pub(crate) fn new(
        alloc: Global,
        cells: &[Logic],
        drivers: &[Option<usize>],
    ) -> Result<FanIn, AllocError>
        requires { IsGraph drivers.now cells.now }
        ensures { IfOk result (λ fan_in. fan_in ≡ map (λ cell. drivers_at drivers.now cell.inputs) cells.now) }
    {
        let mut above = Vec::with_capacity(alloc, cells.len())?;
        let mut starts = Vec::with_capacity(alloc, cells.len() + 1)?;
        starts.push(0)?;
        for cell in cells {
            push_drivers(&mut above, &cell.inputs, drivers)?;
            starts.push(above.len())?;
        }
        Ok(FanIn {
            cells: above,
            starts,
        })
    }

    /// How many cells there are.
    pub(crate) fn len(&self) -> usize
        ensures { result ≡ length self.now }
    {
        self.starts.len() - 1
    }

    /// The cells that drive the inputs of a cell.
    pub(crate) fn of(&self, cell: usize) -> &[usize]
        requires { cell < length self.now }
        ensures { result.now ≡ get_or self.now cell [] }
    {
        let start = self.starts[cell];
        let end = self.starts[cell + 1];
        &self.cells[start..end]
    }
}

/// Puts the cells that drive these nets behind others.
fn push_drivers(
    above: &mut Vec<usize>,
    nets: &[NetId],
    drivers: &[Option<usize>],
) -> Result<(), AllocError>
    requires { All (λ net. net < length drivers.now) nets.now }
    ensures { OnOk result (above.new.items ≡ above.old.items ++ drivers_at drivers.now nets.now) }
{
    for net in nets {
        push_driver(above, entry(drivers, net.number() as usize))?;
    }
    Ok(())
}

/// Puts the cell that drives a net, if one does, behind others.
fn push_driver(above: &mut Vec<usize>, driver: Option<usize>) -> Result<(), AllocError>
    ensures { OnOk result (above.new.items ≡ above.old.items ++ option_to_list driver) }
{
    match driver {
        Some(driver) => above.push(driver)?,
        None => (),
    }
    Ok(())
}
