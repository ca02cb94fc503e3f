//! The logic cells, laid out for a quick look.

ghost use Rattle.std.specs.Prelude.{◌≡◌, ◌+◌, ◌<◌, ◌≤◌, ℕ, drop, length, nat_eq, slice_get, take, Some, IfOk, OnOk};
ghost use Rattle.std.specs.Int.{bit_at};
ghost use Rattle.std.specs.List.{All};
ghost use Rattle.cg_netlist.specs.Circuit.{LogicCell};
ghost use Rattle.cg_netlist.specs.Moment.{function_value, values_at};
ghost use Rattle.cg_netlist.specs.Netlist.{IsNetlist, widest_of};
ghost use Rattle.cg_edge.specs.inner.Flat.{AreLaid, IsLaidAt, IsPushed, row_of};

use crate::narrow::narrow;
use crate::table::{FEW, row, table};
use cg_net::id::{CellId, NetId};
use cg_netlist::netlist::Netlist;
use cg_netlist::walk::gather;
use std::alloc::{AllocError, Global};
use std::marker::Model;

/// A logic cell: its output, where its inputs stand, and its table, where it has few inputs.
#[derive(Clone, Copy)]
pub(crate) struct FlatCell {
    output: NetId,
    first: u32,
    count: u32,
    table: u64,
}

/// The logic cells in walk order.
///
/// Why not those of the netlist: each of them has its inputs and its function in places of their own in memory, which a look
/// would have to fetch one after the other.
#[derive(Drop)]
pub(crate) struct FlatCells {
    cells: Vec<FlatCell>,
    inputs: Vec<NetId>,
}

impl Model for FlatCells {
    ghost use Rattle.cg_edge.specs.inner.Flat.{Layout};

    ghost Value = { Layout };

    ghost view = { λ c. record { cells = c.cells.items; inputs = c.inputs.items } };
}

impl FlatCells {
    /// The logic cells of a netlist in this order.
    pub(crate) fn new(
        alloc: Global,
        netlist: &Netlist,
        order: &[CellId],
    ) -> Result<FlatCells, AllocError>
        requires { All (λ k. k < length netlist.now.cells) order.now }
        ensures { IfOk result (λ cells. AreLaid netlist.now order.now (length order.now) cells) }
    {
        let mut cells = FlatCells {
            cells: Vec::with_capacity(alloc, order.len())?,
            inputs: Vec::with_capacity(alloc, input_count(netlist, order))?,
        };
        for id in order {
            cells.push(netlist, *id)?;
        }
        Ok(cells)
    }

    /// Lays a logic cell out behind the others.
    fn push(&mut self, netlist: &Netlist, id: CellId) -> Result<(), AllocError>
        requires { id < length netlist.now.cells }
        ensures { OnOk result ((cell : LogicCell ℕ) → slice_get netlist.now.cells id ≡ Some cell → IsPushed cell self.old self.new) }
    {
        let cell = netlist.cell(id);
        let first = narrow(self.inputs.len())?;
        let count = narrow(cell.inputs.len())?;
        let laid = FlatCell {
            output: cell.output,
            first,
            count,
            table: table(netlist, id),
        };
        self.inputs.extend_from_slice(cell.inputs)?;
        self.cells.push(laid)?;
        Ok(())
    }

    /// The output of the logic cell of this number, which is laid out at this place.
    pub(crate) fn output(&self, netlist: &Netlist, id: CellId, place: usize) -> NetId
        requires place { place < length self.now.cells }
        requires laid { IsLaidAt netlist.now id self.now place }
        ensures { (cell : LogicCell ℕ) → slice_get netlist.now.cells id ≡ Some cell → result ≡ cell.output }
    {
        self.cells[place].output
    }

    /// The bit of the logic cell of this number, which is laid out at this place.
    #[inline(always)]
    pub(crate) fn evaluate(
        &self,
        netlist: &Netlist,
        id: CellId,
        place: usize,
        nets: &[bool],
        scratch: &mut [bool],
    ) -> bool
        requires netlist { IsNetlist netlist.now }
        requires cell { id < length netlist.now.cells }
        requires place { place < length self.now.cells }
        requires laid { IsLaidAt netlist.now id self.now place }
        requires nets { length nets.now ≡ length netlist.now.names }
        requires room { widest_of netlist.now.cells ≤ length scratch.old }
        ensures value { (cell : LogicCell ℕ) → slice_get netlist.now.cells id ≡ Some cell
            → result ≡ function_value cell.function (values_at nets.now cell.inputs) }
        ensures room { length scratch.new ≡ length scratch.old }
    {
        let laid = self.cells[place];
        if laid.count as usize > FEW {
            return evaluate_wide(netlist, id, nets, scratch);
        }
        look_up(laid, &self.inputs, nets)
    }
}

/// How many inputs the logic cells of these numbers have, so that room is made for no more. Only that rests on it.
fn input_count(netlist: &Netlist, order: &[CellId]) -> usize
    requires { All (λ k. k < length netlist.now.cells) order.now }
{
    let mut count = 0usize;
    for id in order {
        count = count.saturating_add(netlist.cell(*id).inputs.len());
    }
    count
}

/// The bit of a logic cell of few inputs, by its table.
fn look_up(laid: FlatCell, inputs: &[NetId], nets: &[bool]) -> bool
    requires few { laid.count ≤ 6 }
    requires within { laid.first + laid.count ≤ length inputs.now }
    requires nets { All (λ net. net < length nets.now) (take laid.count (drop laid.first inputs.now)) }
    ensures { result ≡ nat_eq (bit_at laid.table (row_of (values_at nets.now (take laid.count (drop laid.first inputs.now))))) 1 }
{
    let own = &inputs[laid.first as usize..][..laid.count as usize];
    laid.table >> row(nets, own) & 1 == 1
}

/// The bit of a logic cell, by its function itself.
#[inline(never)]
fn evaluate_wide(netlist: &Netlist, id: CellId, nets: &[bool], scratch: &mut [bool]) -> bool
    requires netlist { IsNetlist netlist.now }
    requires cell { id < length netlist.now.cells }
    requires nets { length nets.now ≡ length netlist.now.names }
    requires room { widest_of netlist.now.cells ≤ length scratch.old }
    ensures value { (cell : LogicCell ℕ) → slice_get netlist.now.cells id ≡ Some cell → result ≡ function_value cell.function (values_at nets.now cell.inputs) }
    ensures room { length scratch.new ≡ length scratch.old }
{
    let inputs = netlist.cell(id).inputs;
    gather(nets, inputs, scratch);
    netlist.value(id, &scratch[..inputs.len()])
}
