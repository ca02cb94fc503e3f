//! The latches of gating cells.

ghost use Rattle.std.specs.Prelude.{◌≡◌, ◌<◌, length, slice_get, Some};
ghost use Rattle.std.specs.Option.{option_map};
ghost use Rattle.cg_netlist.specs.History.{next_latch};
ghost use Rattle.cg_netlist.specs.Moment.{zip_with};
ghost use Rattle.cg_netlist.specs.Netlist.{IsNetlist};

use cg_net::id::GateClockId;
use cg_netlist::netlist::Netlist;

/// Moves the latches to the present bits of nets: where the clock pin is low, a latch follows the enable or the test net.
pub(crate) fn follow(netlist: &Netlist, nets: &[bool], latches: &mut [bool])
    requires netlist { IsNetlist netlist.now }
    requires nets { length nets.now ≡ length netlist.now.names }
    requires latches { length latches.old ≡ length netlist.now.gaters }
    ensures { latches.new ≡ zip_with (next_latch nets.now) netlist.now.gaters latches.old }
{
    for k in 0..netlist.gaters() {
        let place = k as usize;
        latches[place] = next(netlist, GateClockId::new(k), nets, latches[place]);
    }
}

/// The next bit of a latch that has this bit.
fn next(netlist: &Netlist, id: GateClockId, nets: &[bool], own: bool) -> bool
    requires netlist { IsNetlist netlist.now }
    requires gater { id < length netlist.now.gaters }
    requires nets { length nets.now ≡ length netlist.now.names }
    ensures { option_map (λ gater. next_latch nets.now gater own) (slice_get netlist.now.gaters id) ≡ Some result }
{
    let gater = netlist.gater(id);
    if nets[gater.clock.number() as usize] {
        return own;
    }
    if nets[gater.enable.number() as usize] {
        return true;
    }
    match gater.test {
        Some(test) => nets[test.number() as usize],
        None => false,
    }
}
