//! Added gates, told to a builder as cells of the library.

ghost use Rattle.std.specs.Prelude.{◌≡◌, ◌∷◌, [], Some, map};
ghost use Rattle.std.specs.List.{All, find};
ghost use Rattle.cg_cell.specs.Fit.{is_fit};
ghost use Rattle.cg_cell.specs.Cell.{CellData};
ghost use Rattle.cg_insert.specs.Insert.{fitting, placed_gate};
ghost use Rattle.cg_netlist_telling.specs.NamedParts.{cell_part, cell_parts};
ghost use Rattle.cg_netlist_telling.specs.Telling.{MayTell, WasTold};
ghost use Rattle.cg_machine.specs.View.{gate_seen};

use cg_cell::cell::CellType;
use cg_cell::fit::FitKind;
use cg_cell::library::Library;
use cg_machine::machine::Machine;
use cg_machine::view::GateView;
use cg_netlist::fault::AddFault;
use cg_netlist_builder::builder::Builder;
use cg_netlist_telling::parts::NetlistNames;
use std::alloc::Global;

/// Tells the added gates of a machine, each as the first cell of the library that fits it.
pub(crate) fn tell_gates(
    alloc: Global,
    builder: &mut Builder,
    names: &NetlistNames<'_>,
    machine: &Machine,
    library: &Library,
) -> Result<(), AddFault>
    requires fits { All (λ gate. (cell : CellData) × (find (is_fit gate.kind) library.now ≡ Some cell)) machine.now.gates }
    requires parts { MayTell builder.old (cell_parts names.now (map (placed_gate library.now) machine.now.gates)) }
    ensures { WasTold builder.old (cell_parts names.now (map (placed_gate library.now) machine.now.gates)) builder.new result }
{
    for number in 0..machine.gates() {
        tell_gate(alloc, builder, names, machine.gate(number), library)?;
    }
    Ok(())
}

/// Tells an added gate.
fn tell_gate(
    alloc: Global,
    builder: &mut Builder,
    names: &NetlistNames<'_>,
    gate: GateView<'_>,
    library: &Library,
) -> Result<(), AddFault>
    requires fits { (cell : CellData) × (find (is_fit gate.kind) library.now ≡ Some cell) }
    requires parts { MayTell builder.old (cell_part names.now (placed_gate library.now (gate_seen gate)) ∷ []) }
    ensures { WasTold builder.old (cell_part names.now (placed_gate library.now (gate_seen gate.entry)) ∷ []) builder.new result }
{
    let inputs = names.each(alloc, gate.inputs)?;
    let cell = fitting(library, gate.kind);
    builder.logic(cell, &inputs, names.name(gate.output))
}

/// The first cell of a library that fits, which must be there.
pub(crate) fn fitting(library: &Library, kind: FitKind) -> &CellType
    requires { (cell : CellData) × (find (is_fit kind) library.now ≡ Some cell) }
    ensures { result.now ≡ fitting library.now kind }
{
    library.cell(library.fit(kind).unwrap())
}
