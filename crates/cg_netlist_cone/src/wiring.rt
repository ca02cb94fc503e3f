//! What a walk back over logic cells asks for.

ghost use Rattle.std.specs.Prelude.{◌≡◌, ◌<◌, ℕ, List, Some, length, slice_get};
ghost use Rattle.cg_netlist.specs.Circuit.{Circuit, LogicCell};
ghost use Rattle.cg_netlist.specs.Drivers.{IsDriver};
ghost use Rattle.cg_netlist_cone.specs.inner.Reaching.{IsWired};

use cg_net::id::{CellId, NetId};
use cg_netlist::driver::Driver;

/// Logic cells with what drives them: a netlist, or one with more cells behind its own.
///
/// Clauses see the netlist as plain data, and the order in which its cells are walked.
pub trait Wiring {
    ghost circuit: { Self → Circuit };

    ghost order: { Self → List ℕ };

    /// The number of nets.
    fn net_count(&self) -> u32
        ensures count { result ≡ length (circuit self.now).names }
        ensures wired { IsWired (circuit self.now) (order self.now) };

    /// What drives a net.
    fn net_driver(&self, net: NetId) -> Driver
        requires { net < length (circuit self.now).names }
        ensures { IsDriver (circuit self.now) net result };

    /// The inputs of a logic cell.
    fn cell_inputs(&self, id: CellId) -> &[NetId]
        requires { id < length (circuit self.now).cells }
        ensures { (cell : LogicCell ℕ) → slice_get (circuit self.now).cells id ≡ Some cell → result.now ≡ cell.inputs };

    /// The place of a logic cell in the order.
    fn cell_place(&self, id: CellId) -> u32
        requires { id < length (circuit self.now).cells }
        ensures { slice_get (order self.now) result ≡ Some id };

    /// The logic cell at a place of the order.
    fn cell_in_place(&self, place: u32) -> CellId
        requires { place < length (order self.now) }
        ensures { slice_get (order self.now) place ≡ Some result };
}
