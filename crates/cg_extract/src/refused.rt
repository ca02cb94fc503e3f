//! Gating cells that are not lifted.

ghost use Rattle.std.specs.Prelude.{◌≡◌, ◌<◌, ℕ, Some, length, not, slice_get};
ghost use Rattle.std.specs.Option.{option_to_list};
ghost use Rattle.cg_extract.specs.Lifted.{first_refused, is_refused};
ghost use Rattle.cg_netlist.specs.Circuit.{GatingCell};
ghost use Rattle.cg_net.specs.NetSets.{is_in};

use cg_net::id::{GateClockId, NetId};
use cg_netlist::netlist::Netlist;

/// The first gating cell that has a test pin, or whose clock pin is driven by a gating cell while there is no cell for the and of
/// two nets.
pub fn first_refused(netlist: &Netlist, and2: bool) -> Option<GateClockId>
    ensures { result ≡ first_refused netlist.now and2 }
{
    for number in 0..netlist.gaters() {
        let id = GateClockId::new(number);
        if is_refused(netlist, id, and2) {
            return Some(id);
        }
    }
    None
}

/// Whether a gating cell is not lifted.
fn is_refused(netlist: &Netlist, id: GateClockId, and2: bool) -> bool
    requires { id < length netlist.now.gaters }
    ensures { (gater : GatingCell ℕ) → slice_get netlist.now.gaters id ≡ Some gater → result ≡ is_refused netlist.now and2 gater }
{
    let _gaters = netlist.gaters();
    let gater = netlist.gater(id);
    gater.test.is_some() || (!and2 && is_apart(netlist.clock(), gater.clock))
}

/// Whether a net is not the clock.
fn is_apart(clock: Option<NetId>, net: NetId) -> bool
    ensures { result ≡ not (is_in (option_to_list clock) net) }
{
    match clock {
        Some(clock) => clock.number() != net.number(),
        None => true,
    }
}
