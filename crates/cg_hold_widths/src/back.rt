//! Masks that are led back over logic cells.

ghost use Rattle.std.specs.Prelude.{◌≡◌, ◌<◌, ◌||◌, ◌&&◌, ℕ, List, Some, length, slice_get, OnOk};
ghost use Rattle.std.specs.List.{All};
ghost use Rattle.cg_hold_widths.specs.inner.Masks.{AreMasks, has_bit, mask_at};
ghost use Rattle.cg_net.specs.NetSets.{is_in};
ghost use Rattle.cg_netlist.specs.Circuit.{LogicCell};
ghost use Rattle.cg_netlist.specs.Moment.{values_at};
ghost use Rattle.cg_netlist_cone.specs.Cone.{cone_of};

use crate::masks::Masks;
use cg_machine::machine::Machine;
use cg_net::id::CellId;
use std::alloc::AllocError;

/// Leads masks back over logic cells, from the last of them to the first: with the bits of its output a cell's inputs get them.
pub(crate) fn lead_back(
    machine: &Machine,
    cells: &[CellId],
    masks: &mut Masks,
) -> Result<(), AllocError>
    requires { All (λ k. k < length machine.now.circuit.cells) cells.now }
    ensures { OnOk result ((nets : ℕ → List ℕ) → AreMasks nets masks.old
        → AreMasks (λ i. cone_of (values_at machine.now.circuit.cells cells.now) (nets i)) masks.new) }
{
    for place in (0..cells.len()).rev() {
        lead_through(machine, cells[place], masks)?;
    }
    Ok(())
}

/// Leads masks back over one logic cell.
fn lead_through(machine: &Machine, id: CellId, masks: &mut Masks) -> Result<(), AllocError>
    requires { id < length machine.now.circuit.cells }
    ensures { OnOk result ((cell : LogicCell ℕ) → slice_get machine.now.circuit.cells id ≡ Some cell
        → (i y : ℕ) → has_bit i (mask_at masks.new y) ≡ (has_bit i (mask_at masks.old y) || (is_in cell.inputs y && has_bit i (mask_at masks.old cell.output)))) }
{
    let bits = masks.of(machine.output_of(id));
    masks.add_all(machine.inputs_of(id), bits)
}
