//! Walks over the cells of a cone, up to the first fault.

ghost use Rattle.std.specs.Prelude.{◌≡◌, ◌<◌, ◌≤◌, ℕ, Some, length, slice_get};
ghost use Rattle.std.specs.List.{All};
ghost use Rattle.cg_netlist.specs.Circuit.{LogicCell};
ghost use Rattle.cg_netlist.specs.Netlist.{widest_of};
ghost use Rattle.cg_machine.specs.Tries.{MayTry, Tries};

use crate::machine::Machine;
use cg_net::id::{CellId, NetId};
use cg_netlist::walk::{gather, put};
use cg_netlist_cone::cone::Cone;

impl Machine {
    /// Calls `step` once for each cell of the cone, added gates among them, in the order of the cone, with the state and
    /// the values that stand at the cell's inputs at that moment, and puts the answer at the cell's output. The first fault
    /// of `step` ends the walk and is answered. There is a value for each net, and `scratch` has at least `widest` places,
    /// whose contents do not matter. It takes no memory.
    pub fn try_walk<S, T: Copy, E, F: Fn(&mut S, CellId, &[T]) -> Result<T, E>>(
        &self,
        cone: &Cone,
        state: &mut S,
        values: &mut [T],
        scratch: &mut [T],
        step: &F,
    ) -> Result<(), E>
        requires cells { All (λ k. k < length self.now.circuit.cells) cone.now.cells }
        requires values { length values.old ≡ length self.now.circuit.names }
        requires scratch { widest_of self.now.circuit.cells ≤ length scratch.old }
        requires callable { MayTry F.Fn step.now self.now.circuit.cells cone.now.cells state.old values.old }
        ensures { Tries F.Fn step.now self.now.circuit.cells cone.now.cells state.old values.old result state.new values.new }
    {
        let _netlist = self.netlist();
        let cells = cone.cells.as_slice();
        for id in cells {
            let inputs = self.inputs_of(*id);
            gather(values, inputs, scratch);
            let answer = step(state, *id, &scratch[..inputs.len()])?;
            put(values, self.output_of(*id), answer);
        }
        Ok(())
    }

    /// The inputs of a logic cell or an added gate, which come behind the logic cells.
    pub fn inputs_of(&self, id: CellId) -> &[NetId]
        requires { id < length self.now.circuit.cells }
        ensures { (cell : LogicCell ℕ) → slice_get self.now.circuit.cells id ≡ Some cell → result.now ≡ cell.inputs }
    {
        let own = self.netlist.cells();
        if id.number() < own {
            self.netlist.cell(id).inputs
        } else {
            self.gates.gate((id.number() - own) as usize).view().inputs
        }
    }

    /// The output of a logic cell or an added gate.
    pub fn output_of(&self, id: CellId) -> NetId
        requires { id < length self.now.circuit.cells }
        ensures { (cell : LogicCell ℕ) → slice_get self.now.circuit.cells id ≡ Some cell → result ≡ cell.output }
    {
        let own = self.netlist.cells();
        if id.number() < own {
            self.netlist.cell(id).output
        } else {
            self.gates.gate((id.number() - own) as usize).view().output
        }
    }
}
