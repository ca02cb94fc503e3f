//! Cones: what nets depend on at the same moment.

use crate::wiring::Wiring;
use cg_list::Seq;
use cg_net::id::{CellId, NetId, RegId};
use cg_netlist::driver::Driver;
use cg_netlist::netlist::Netlist;

/// What some nets depend on at the same moment: logic cells in walk order, and the data inputs and registers at their edge,
/// each in order.
#[derive(Drop)]
pub struct Cone {
    /// The logic cells, in walk order.
    pub cells: Seq<CellId>,

    /// The data inputs.
    pub inputs: Seq<NetId>,

    /// The registers.
    pub registers: Seq<RegId>,
}

impl Wiring for Netlist {
    ghost use Rattle.cg_netlist.specs.Nets.{walk_order};

    ghost circuit = { λ netlist. netlist };

    ghost order = { λ netlist. walk_order netlist.cells };

    fn net_count(&self) -> u32 {
        self.nets()
    }

    fn net_driver(&self, net: NetId) -> Driver {
        self.driver(net)
    }

    fn cell_inputs(&self, id: CellId) -> &[NetId] {
        self.cell(id).inputs
    }

    fn cell_place(&self, id: CellId) -> u32 {
        self.place(id)
    }

    fn cell_in_place(&self, place: u32) -> CellId {
        self.order()[place as usize]
    }
}
