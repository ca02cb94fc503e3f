//! The simulator.

ghost use Rattle.std.specs.Prelude.{◌≡◌, ◌<◌, [], Some, false, length, slice_get, slice_index_or, IfOk, IsSome};
ghost use Rattle.std.specs.Option.{option_map};
ghost use Rattle.cg_netlist.specs.Moment.{bit};
ghost use Rattle.cg_edge.specs.Shows.{Shows, ShowsOn};
ghost use Rattle.cg_edge.specs.Simulated.{MayTick, Simulated, Ticks, fresh};

use crate::marks::Marks;
use crate::moment::advance;
use crate::present::Bits;
use crate::schedule::Schedule;
use cg_net::id::{GateClockId, NetId, RegId};
use cg_netlist::netlist::Netlist;
use std::alloc::{AllocError, Global};
use std::marker::Model;

/// A netlist at one moment of its history.
///
/// It keeps the present bits of all nets, registers and latches, and marks the logic cells that have a changed input, so
/// that a tick looks at those alone. All room that ticks need is made by `new`. Clauses see a `Simulated`; which
/// histories it shows is said by `Shows`.
#[derive(Drop)]
pub struct Simulator<'a> {
    schedule: Schedule<'a>,
    start: Vec<bool>,
    ticked: bool,
    bits: Bits,
    marks: Marks,
}

impl<'a> Model for Simulator<'a> {
    ghost use Rattle.std.specs.Coded.{codes};
    ghost use Rattle.cg_cell.specs.TermCode.{term_code};
    ghost use Rattle.cg_edge.specs.Simulated.{Simulated};
    ghost use Rattle.cg_edge.specs.inner.Kept.{IsKept, present_at};

    ghost Value = { Simulated };

    ghost coded = { Prim.hlevel (codes, term_code) };

    ghost view = { λ s. record {
      circuit = s.schedule.netlist.now;
      start = s.start.items;
      present = present_at s.ticked s.bits;
      rose = s.bits.rose.items;
    } };

    ghost invariant = { λ s. IsKept s.schedule s.start.items s.ticked s.bits s.marks };
}

impl<'a> Simulator<'a> {
    /// A simulator of a netlist whose registers have the bits of `start`, one for each.
    pub fn new(
        alloc: Global,
        netlist: &'a Netlist,
        start: &[bool],
    ) -> Result<Simulator<'a>, AllocError>
        requires { length start.now ≡ length netlist.now.registers }
        ensures fresh { IfOk result (λ simulator. simulator ≡ fresh netlist.entry.now start.now) }
        ensures shows { IfOk result (λ simulator. Shows simulator [] []) }
    {
        let schedule = Schedule::new(alloc, netlist)?;
        let bits = Bits::new(alloc, netlist, start)?;
        let start = Vec::from_slice(alloc, start)?;
        let marks = Marks::all(alloc, schedule.order.len())?;
        Ok(Simulator {
            schedule,
            start,
            ticked: false,
            bits,
            marks,
        })
    }

    /// Goes to the next moment, with this clock bit and a bit for each data input. At the first tick the clock must be low.
    pub fn tick(&mut self, clock: bool, inputs: &[bool])
        requires { MayTick self.old (record { clock = clock; inputs = inputs.now }) }
        ensures ticks { Ticks self.old self.new (record { clock = clock; inputs = inputs.now }) }
        ensures shows { ShowsOn self.old self.new (record { clock = clock; inputs = inputs.now }) }
    {
        advance(
            &self.schedule,
            self.ticked,
            clock,
            inputs,
            &mut self.bits,
            &mut self.marks,
        );
        self.ticked = true;
    }

    /// The netlist.
    pub fn netlist(&self) -> &'a Netlist
        ensures { result.now ≡ self.now.circuit }
    {
        self.schedule.netlist
    }

    /// The present bits of all nets. There must have been a tick.
    pub fn nets(&self) -> &[bool]
        requires { IsSome self.now.present }
        ensures bits { option_map (λ now. now.nets) self.now.present ≡ Some result.now }
        ensures long { length result.now ≡ length self.now.circuit.names }
    {
        &self.bits.nets
    }

    /// The present bit of a net. There must have been a tick.
    pub fn net(&self, net: NetId) -> bool
        requires tick { IsSome self.now.present }
        requires net { net < length self.now.circuit.names }
        ensures { option_map (λ now. bit now.nets net) self.now.present ≡ Some result }
    {
        self.bits.nets[net.number() as usize]
    }

    /// The present bit of a register. There must have been a tick.
    pub fn register(&self, reg: RegId) -> bool
        requires tick { IsSome self.now.present }
        requires register { reg < length self.now.circuit.registers }
        ensures { option_map (λ now. slice_index_or now.state reg false) self.now.present ≡ Some result }
    {
        self.bits.state[reg.number() as usize]
    }

    /// The present bit of the latch of a gating cell. There must have been a tick.
    pub fn latch(&self, gater: GateClockId) -> bool
        requires tick { IsSome self.now.present }
        requires gater { gater < length self.now.circuit.gaters }
        ensures { option_map (λ now. slice_index_or now.latches gater false) self.now.present ≡ Some result }
    {
        self.bits.latches[gater.number() as usize]
    }

    /// Whether a register rose at the present moment.
    pub fn rose(&self, reg: RegId) -> bool
        requires { reg < length self.now.circuit.registers }
        ensures { slice_get self.now.rose reg ≡ Some result }
    {
        self.bits.rose[reg.number() as usize]
    }

    /// For each register whether it rose at the present moment.
    pub fn rises(&self) -> &[bool]
        ensures rose { result.now ≡ self.now.rose }
        ensures long { length result.now ≡ length self.now.circuit.registers }
    {
        &self.bits.rose
    }
}
