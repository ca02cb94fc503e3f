//! Walk order: the netlist's, and then the added gates in order of addition.

ghost use Rattle.std.specs.Prelude.{◌≡◌, ◌<◌, Some, length, slice_get};
ghost use Rattle.cg_machine.specs.Machine.{order_of};

use crate::machine::Machine;
use cg_net::id::CellId;

impl Machine {
    /// The place in walk order of a logic cell or an added gate.
    pub fn place(&self, id: CellId) -> u32
        requires { id < length self.now.circuit.cells }
        ensures { slice_get (order_of self.now) result ≡ Some id }
    {
        let netlist = self.netlist();
        let own = netlist.cells();
        if id.number() < own {
            netlist.place(id)
        } else {
            netlist.order().len() as u32 + (id.number() - own)
        }
    }

    /// The logic cell or added gate at a place in walk order.
    pub fn cell_at(&self, place: u32) -> CellId
        requires { place < length (order_of self.now) }
        ensures { slice_get (order_of self.now) place ≡ Some result }
    {
        let netlist = self.netlist();
        let order = netlist.order();
        let own = order.len() as u32;
        if place < own {
            order[place as usize]
        } else {
            CellId::new(netlist.cells() + (place - own))
        }
    }
}
