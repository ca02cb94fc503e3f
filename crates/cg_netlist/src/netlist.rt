//! Well-formed netlists.

ghost use Rattle.std.specs.Prelude.{◌≡◌, ◌<◌, ◌^◌, ℕ, Some, false, not, length, slice_get, IfOk, MatchOption};
ghost use Rattle.std.specs.List.{All, filter};
ghost use Rattle.std.specs.Option.{option_to_list};
ghost use Rattle.cg_netlist.specs.Circuit.{LogicCell, data_inputs};
ghost use Rattle.cg_net.specs.NetSets.{is_in};
ghost use Rattle.cg_netlist.specs.Drivers.{IsDriver};
ghost use Rattle.cg_netlist.specs.Moment.{function_value};
ghost use Rattle.cg_net.specs.Names.{is_known};
ghost use Rattle.cg_netlist.specs.Netlist.{IsNetlist, widest_of};
ghost use Rattle.cg_netlist.specs.Nets.{walk_order};
ghost use Rattle.cg_netlist.specs.Ranks.{ranks_of};
ghost use Rattle.cg_netlist.specs.Walk.{IsCellCall};
ghost use Rattle.cg_netlist.specs.View.{cell_seen, gater_seen, register_seen};

use crate::cycles::cell_ranks;
use crate::driver::{Driver, drivers};
use crate::levels::{places, walk_by_ranks};
use crate::parts::{CellView, Gater, GaterView, Logic, Parts, RegView};
use cg_net::id::{CellId, GateClockId, NetId, RegId};
use std::alloc::{AllocError, Global};
use std::marker::Model;

/// A well-formed netlist whose nets are numbered in net order.
///
/// It is an arena: the parts lie in lists and name each other by number, and it is never changed. Clauses see the
/// plain data. `IsNetlist` holds of it: every net has exactly one driver, no cycle of logic cells, and each
/// clock pin is reached from the clock through gating cells alone.
#[derive(Drop)]
pub struct Netlist {
    parts: Parts,
    data_inputs: Vec<NetId>,
    widest: u32,
    order: Vec<CellId>,
    places: Vec<u32>,
    drivers: Vec<Driver>,
}

impl Model for Netlist {
    ghost use Rattle.std.specs.Coded.{codes};
    ghost use Rattle.cg_cell.specs.TermCode.{term_code};
    ghost use Rattle.cg_netlist.specs.Circuit.{Circuit};
    ghost use Rattle.cg_netlist.specs.inner.Kept.{IsKept};

    ghost Value = { Circuit };

    ghost coded = { Prim.hlevel (codes, term_code) };

    ghost view = { λ n. n.parts };

    ghost invariant = { λ n. IsKept n.parts n.data_inputs.items n.widest n.order.items n.places.items n.drivers.items };
}

impl Netlist {
    /// The netlist of these parts: well formed, with its nets in net order and within the limits. This is how a netlist comes
    /// to be, for whoever has shown that its parts are one.
    pub fn new(alloc: Global, parts: Parts) -> Result<Netlist, AllocError>
        requires { IsNetlist parts }
        ensures { IfOk result (λ netlist. netlist ≡ parts) }
    {
        let ranks = cell_ranks(alloc, parts.names.len(), &parts.cells)?;
        Netlist::with_ranks(alloc, parts, &ranks)
    }

    /// The same, for whoever knows the ranks of the logic cells.
    pub fn with_ranks(
        alloc: Global,
        parts: Parts,
        ranks: &[Option<usize>],
    ) -> Result<Netlist, AllocError>
        requires netlist { IsNetlist parts }
        requires ranks { ranks.now ≡ ranks_of parts.cells }
        ensures { IfOk result (λ netlist. netlist ≡ parts) }
    {
        let data_inputs = inputs_without(alloc, &parts.inputs, &parts.clock)?;
        let widest = widest(&parts.cells);
        let order = walk_by_ranks(alloc, &parts.cells, ranks)?;
        let places = places(alloc, parts.cells.len(), &order)?;
        let drivers = drivers(alloc, &parts)?;
        Ok(Netlist {
            parts,
            data_inputs,
            widest,
            order,
            places,
            drivers,
        })
    }

    /// The name of the model.
    pub fn model(&self) -> &[u8]
        ensures { result.now ≡ self.now.model }
    {
        let parts = &self.parts;
        parts.model.bytes()
    }

    /// The inputs in their order, the clock among them where it is one.
    pub fn inputs(&self) -> &[NetId]
        ensures { result.now ≡ self.now.inputs }
    {
        let parts = &self.parts;
        &parts.inputs
    }

    /// The inputs without the clock, in their order.
    pub fn data_inputs(&self) -> &[NetId]
        ensures { result.now ≡ data_inputs self.now }
    {
        &self.data_inputs
    }

    /// The outputs in their order.
    pub fn outputs(&self) -> &[NetId]
        ensures { result.now ≡ self.now.outputs }
    {
        let parts = &self.parts;
        &parts.outputs
    }

    /// The clock, or `None` where nothing is clocked.
    pub fn clock(&self) -> Option<NetId>
        ensures { result ≡ self.now.clock }
    {
        let parts = &self.parts;
        parts.clock
    }

    /// The number of nets.
    pub fn nets(&self) -> u32
        ensures count { result ≡ length self.now.names }
        ensures netlist { IsNetlist self.now }
    {
        let parts = &self.parts;
        parts.names.len() as u32
    }

    /// The number of logic cells.
    pub fn cells(&self) -> u32
        ensures count { result ≡ length self.now.cells }
        ensures netlist { IsNetlist self.now }
    {
        let parts = &self.parts;
        parts.cells.len() as u32
    }

    /// The number of registers.
    pub fn registers(&self) -> u32
        ensures count { result ≡ length self.now.registers }
        ensures netlist { IsNetlist self.now }
    {
        let parts = &self.parts;
        parts.registers.len() as u32
    }

    /// The number of gating cells.
    pub fn gaters(&self) -> u32
        ensures count { result ≡ length self.now.gaters }
        ensures netlist { IsNetlist self.now }
    {
        let parts = &self.parts;
        parts.gaters.len() as u32
    }

    /// The greatest number of inputs of a logic cell, 0 without logic cells.
    pub fn widest(&self) -> u32
        ensures { result ≡ widest_of self.now.cells }
    {
        self.widest
    }

    /// The name of a net, which must be one of the netlist's.
    pub fn name(&self, net: NetId) -> &[u8]
        requires { net < length self.now.names }
        ensures { slice_get self.now.names net ≡ Some result.now }
    {
        let parts = &self.parts;
        parts.names.name(net.number() as usize)
    }

    /// The net of a name, or `None` where no net has it.
    pub fn find(&self, name: &[u8]) -> Option<NetId>
        ensures { MatchOption result (is_known self.now.names name.now ≡ false) (λ net. slice_get self.now.names net ≡ Some name.now) }
    {
        let parts = &self.parts;
        match parts.names.find(name) {
            Some(number) => Some(NetId::new(number as u32)),
            None => None,
        }
    }

    /// A logic cell, which must be one of the netlist's.
    pub fn cell(&self, id: CellId) -> CellView<'_>
        requires { id < length self.now.cells }
        ensures { slice_get self.now.cells id ≡ Some (cell_seen result) }
    {
        let parts = &self.parts;
        parts.cells[id.number() as usize].view()
    }

    /// A register, which must be one of the netlist's.
    pub fn register(&self, id: RegId) -> RegView<'_>
        requires { id < length self.now.registers }
        ensures { slice_get self.now.registers id ≡ Some (register_seen result) }
    {
        let parts = &self.parts;
        parts.registers[id.number() as usize].view()
    }

    /// A gating cell, which must be one of the netlist's.
    pub fn gater(&self, id: GateClockId) -> GaterView<'_>
        requires { id < length self.now.gaters }
        ensures { slice_get self.now.gaters id ≡ Some (gater_seen result) }
    {
        let parts = &self.parts;
        parts.gaters[id.number() as usize].view()
    }

    /// The gating cells, as they are kept.
    pub(crate) fn gating(&self) -> &[Gater]
        ensures { result.now ≡ self.now.gaters }
    {
        let parts = &self.parts;
        &parts.gaters
    }

    /// The value of a logic cell's function at bits of its inputs.
    pub fn value(&self, id: CellId, bits: &[bool]) -> bool
        requires { IsCellCall self.now id bits.now }
        ensures { (cell : LogicCell ℕ) → slice_get self.now.cells id ≡ Some cell → result ≡ function_value cell.function bits.now }
    {
        let parts = &self.parts;
        let cell = &parts.cells[id.number() as usize];
        cell.function.view().value(bits)
    }

    /// The logic cells in walk order: by rank, where a cell has a higher rank than those that drive its inputs, and those
    /// of one rank by number.
    pub fn order(&self) -> &[CellId]
        ensures order { result.now ≡ walk_order self.now.cells }
        ensures netlist { IsNetlist self.now }
    {
        let _parts = &self.parts;
        &self.order
    }

    /// The place in walk order of a logic cell, which must be one of the netlist's.
    pub fn place(&self, id: CellId) -> u32
        requires { id < length self.now.cells }
        ensures { slice_get (walk_order self.now.cells) result ≡ Some id }
    {
        self.places[id.number() as usize]
    }

    /// What drives a net, which must be one of the netlist's.
    pub fn driver(&self, net: NetId) -> Driver
        requires { net < length self.now.names }
        ensures { IsDriver self.now net result }
    {
        self.drivers[net.number() as usize]
    }
}

/// Whether a net is the clock.
fn is_clock(clock: &Option<NetId>, net: NetId) -> bool
    ensures { result ≡ is_in (option_to_list clock.now) net }
{
    match clock {
        Some(clock) => net.number() == clock.number(),
        None => false,
    }
}

/// The inputs without the clock.
fn inputs_without(
    alloc: Global,
    inputs: &[NetId],
    clock: &Option<NetId>,
) -> Result<Vec<NetId>, AllocError>
    ensures { IfOk result (λ nets. nets.items ≡ filter (λ net. not (is_in (option_to_list clock.now) net)) inputs.now) }
{
    let mut nets = Vec::new(alloc);
    for net in inputs {
        if !is_clock(clock, *net) {
            nets.push(*net)?;
        }
    }
    Ok(nets)
}

/// The greatest number of inputs of a cell, 0 without cells.
fn widest(cells: &[Logic]) -> u32
    requires { All (λ cell. length cell.inputs < 2 ^ 32) cells.now }
    ensures { result ≡ widest_of cells.now }
{
    let mut widest = 0;
    for cell in cells {
        widest = widest.max(cell.inputs.len() as u32);
    }
    widest
}
