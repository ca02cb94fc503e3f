//! Cones: what nets of a machine depend on in the same cycle.

ghost use Rattle.std.specs.Prelude.{◌≡◌, ◌<◌, [], length, IfOk};
ghost use Rattle.std.specs.List.{All};
ghost use Rattle.cg_machine.specs.Machine.{order_of};
ghost use Rattle.cg_netlist_cone.specs.Cone.{cone_at};

use crate::machine::Machine;
use cg_net::id::{CellId, NetId};
use cg_net::net_set::NetSet;
use cg_netlist::driver::Driver;
use cg_netlist_cone::cone::Cone;
use cg_netlist_cone::reach::reached_cone;
use cg_netlist_cone::wiring::Wiring;
use std::alloc::{AllocError, Global};

/// Finds cones, one after another, each at the cost of what it reaches.
///
/// It keeps a mark for each net from call to call, so that a call need not make them: the marks grow with the machines that
/// it is used with, and each call clears those that it has set. So one finder serves a machine that grows.
#[derive(Drop)]
pub struct ConeFinder {
    alloc: Global,
    found: NetSet,
    ghost clear: { found ≡ [] },
}

impl ConeFinder {
    /// A finder that has found nothing yet.
    pub fn new(alloc: Global) -> ConeFinder {
        ConeFinder {
            alloc,
            found: NetSet::new(alloc),
        }
    }

    /// The cone of these nets, which must be the machine's: the logic cells and added gates from which they are reached
    /// through logic cells and added gates, in walk order, where added gate `k` has the number `k` above the netlist's
    /// cells; and the data inputs and registers at the edge, each in order, delay registers last.
    pub fn find(&mut self, machine: &Machine, roots: &[NetId]) -> Result<Cone, AllocError>
        requires { All (λ net. net < length machine.now.circuit.names) roots.now }
        ensures { IfOk result (λ cone. cone ≡ cone_at machine.now.circuit (order_of machine.now) roots.now) }
    {
        let cone = reached_cone(self.alloc, machine, roots, &mut self.found);
        self.found.clear();
        cone
    }
}

impl Machine {
    /// The cone of these nets, which must be the machine's, as a finder finds it. It makes a mark for each net; where many
    /// cones are asked for, a finder is kept.
    pub fn cone(&self, roots: &[NetId]) -> Result<Cone, AllocError>
        requires { All (λ net. net < length self.now.circuit.names) roots.now }
        ensures { IfOk result (λ cone. cone ≡ cone_at self.now.circuit (order_of self.now) roots.now) }
    {
        ConeFinder::new(self.alloc).find(self, roots)
    }
}

impl Wiring for Machine {
    ghost use Rattle.cg_machine.specs.Machine.{order_of};

    ghost circuit = { λ machine. machine.circuit };

    ghost order = { order_of };

    fn net_count(&self) -> u32 {
        let netlist = self.netlist();
        let _nets = netlist.nets();
        self.nets()
    }

    fn net_driver(&self, net: NetId) -> Driver {
        self.driver(net)
    }

    fn cell_inputs(&self, id: CellId) -> &[NetId] {
        self.inputs_of(id)
    }

    fn cell_place(&self, id: CellId) -> u32 {
        self.place(id)
    }

    fn cell_in_place(&self, place: u32) -> CellId {
        self.cell_at(place)
    }
}
