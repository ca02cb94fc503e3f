//! The clock, and the outputs of gating cells.

ghost use Rattle.std.specs.Prelude.{◌≡◌, ◌<◌, ◌&&◌, ℕ, false, length, slice_get, slice_index_or, slice_set, Some};
ghost use Rattle.std.specs.Option.{option_map_or};
ghost use Rattle.cg_netlist.specs.Circuit.{GatingCell, clock_nets, gater_outputs};
ghost use Rattle.cg_netlist.specs.Moment.{bit};
ghost use Rattle.cg_netlist.specs.Netlist.{IsNetlist};
ghost use Rattle.cg_edge.specs.inner.Keeping.{AreDriven, IsChain, SameBut, ShowClocks};

use cg_net::id::GateClockId;
use cg_netlist::netlist::Netlist;

/// Puts the clock's bit at the clock, where the netlist has one, and at the output of each gating cell the AND of its
/// latch and its clock pin. The gating cells stand in `chain`, each behind the one that drives its clock pin.
pub(crate) fn drive(
    netlist: &Netlist,
    chain: &[GateClockId],
    clock: bool,
    latches: &[bool],
    nets: &mut [bool],
)
    requires netlist { IsNetlist netlist.now }
    requires chain { IsChain netlist.now chain.now }
    requires latches { length latches.now ≡ length netlist.now.gaters }
    requires nets { length nets.old ≡ length netlist.now.names }
    ensures clocked { ShowClocks netlist.now clock latches.now nets.new }
    ensures same { SameBut (clock_nets netlist.now) nets.old nets.new }
{
    put_clock(netlist, clock, nets);
    drive_gaters(netlist, chain, latches, nets)
}

/// Puts the clock's bit at the clock, where the netlist has one.
fn put_clock(netlist: &Netlist, clock: bool, nets: &mut [bool])
    requires netlist { IsNetlist netlist.now }
    requires nets { length nets.old ≡ length netlist.now.names }
    ensures { nets.new ≡ option_map_or (λ net. slice_set nets.old net clock) netlist.now.clock nets.old }
{
    if let Some(net) = netlist.clock() {
        nets[net.number() as usize] = clock;
    }
}

/// Puts at the output of each gating cell the AND of its latch and its clock pin.
fn drive_gaters(netlist: &Netlist, chain: &[GateClockId], latches: &[bool], nets: &mut [bool])
    requires netlist { IsNetlist netlist.now }
    requires chain { IsChain netlist.now chain.now }
    requires latches { length latches.now ≡ length netlist.now.gaters }
    requires nets { length nets.old ≡ length netlist.now.names }
    ensures driven { AreDriven netlist.now chain.now latches.now nets.new (length chain.now) }
    ensures same { SameBut (gater_outputs netlist.now) nets.old nets.new }
{
    for id in chain {
        drive_gater(netlist, *id, latches, nets);
    }
}

/// Puts at the output of a gating cell the AND of its latch and its clock pin.
fn drive_gater(netlist: &Netlist, id: GateClockId, latches: &[bool], nets: &mut [bool])
    requires netlist { IsNetlist netlist.now }
    requires gater { id < length netlist.now.gaters }
    requires latches { length latches.now ≡ length netlist.now.gaters }
    requires nets { length nets.old ≡ length netlist.now.names }
    ensures { (gater : GatingCell ℕ) → slice_get netlist.now.gaters id ≡ Some gater
        → nets.new ≡ slice_set nets.old gater.output (slice_index_or latches.now id false && bit nets.old gater.clock) }
{
    let gater = netlist.gater(id);
    let passes = nets[gater.clock.number() as usize];
    nets[gater.output.number() as usize] = latches[id.number() as usize] && passes;
}
