//! The cones of nets.

ghost use Rattle.std.specs.Prelude.{◌≡◌, ◌<◌, ◌+◌, ℕ, List, [], true, length, OnOk};
ghost use Rattle.cg_netlist_cone.specs.Cone.{cone_of};
ghost use Rattle.cg_machine.specs.Machine.{walk_of};
ghost use Rattle.cg_net.specs.NetSets.{is_in};
ghost use Rattle.cg_stage_groups.specs.inner.Reaching.{AreOwn, IsReached};

use cg_machine::machine::Machine;
use cg_net::id::NetId;
use cg_net::net_set::NetSet;
use cg_netlist::driver::Driver;
use std::alloc::AllocError;

/// Finds the nets of the cone of these nets of a machine's netlist: these nets, and with the output of a logic cell its
/// inputs. All are nets of the netlist.
pub(crate) fn cone(machine: &Machine, roots: &[NetId], found: &mut NetSet) -> Result<(), AllocError>
    requires empty { found.old ≡ [] }
    requires own { AreOwn machine.now roots.now }
    ensures cone { OnOk result ((y : ℕ) → is_in found.new y ≡ is_in (cone_of (walk_of machine.now) roots.now) y) }
    ensures own { OnOk result (AreOwn machine.now found.new) }
{
    let _netlist = machine.netlist();
    found.extend(roots)?;
    let mut next = 0;
    while next < found.len() {
        spread(machine, next, found)?;
        next += 1;
    }
    Ok(())
}

/// Puts behind the nets that were found the inputs of the logic cell that drives one of them.
fn spread(machine: &Machine, next: usize, found: &mut NetSet) -> Result<(), AllocError>
    requires next { next < length found.old }
    requires own { AreOwn machine.now found.old }
    ensures { OnOk result ((roots : List ℕ) → IsReached machine.now roots next found.old → IsReached machine.now roots (next + 1) found.new) }
{
    let netlist = machine.netlist();
    let _nets = netlist.nets();
    let net = found.net(next);
    if let Driver::Cell(id) = netlist.driver(net) {
        found.extend(netlist.cell(id).inputs)?;
    }
    Ok(())
}
