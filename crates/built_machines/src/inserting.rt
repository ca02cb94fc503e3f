//! The text of the netlist that a machine is inserted as.

ghost use Rattle.std.specs.Prelude.{◌≡◌, ◌≢◌, ◌<◌, ◌+◌, ◌++◌, true, length, take};
ghost use Rattle.std.specs.List.{All};
ghost use Rattle.std.specs.Option.{option_copied};
ghost use Rattle.built_machines.specs.Cells.{HasCell, HaveCells};
ghost use Rattle.cg_insert.specs.Insert.{CanInsert, gate_names};

use cg_blif_out::write_blif;
use cg_cell::fit::FitKind;
use cg_cell::library::Library;
use cg_cell::name::Name;
use cg_insert::insert::insert;
use cg_machine::machine::Machine;
use std::alloc::Global;

/// The text of the netlist that a machine is inserted as, with a test input where one is named.
pub fn inserted_text(
    alloc: Global,
    machine: &Machine,
    library: &Library,
    test: Option<&Name>,
) -> Result<Vec<u8>, ()> {
    if !can_insert(machine, library, test) {
        return Err(());
    }
    let netlist = insert(alloc, machine, library, test).map_err(|_| ())?;
    write_blif(alloc, &netlist).map_err(|_| ())
}

// Whether the library has the cells that are needed, and the name of a test input is new.
#[tactic(auto, using(crate::proofs::MayInsert::untested, crate::proofs::MayInsert::tested))]
fn can_insert(machine: &Machine, library: &Library, test: Option<&Name>) -> bool
    ensures { result ≡ true → CanInsert library.now (option_copied test.entry) machine.now }
{
    let _cells = library.len();
    match test {
        None => has_gates(machine, library) && has_cell(library, FitKind::Gater),
        Some(name) => {
            let _named = name.bytes();
            has_gates(machine, library)
                && has_cell(library, FitKind::TestGater)
                && is_new(machine, name)
        }
    }
}

// Whether the library has a cell for each added gate.
#[tactic(auto, using(crate::proofs::CellsThere::no_gate, crate::proofs::CellsThere::all_gates))]
fn has_gates(machine: &Machine, library: &Library) -> bool
    ensures { result ≡ true → HaveCells library.now machine.now.gates }
{
    for k in 0..machine.gates() {
        if !has_gate(machine, library, k) {
            return false;
        }
    }
    true
}

/// Whether the library has a cell for an added gate, as it has for those before.
fn has_gate(machine: &Machine, library: &Library, k: u32) -> bool
    requires { k < length machine.now.gates }
    ensures { result ≡ true → HaveCells library.now (take k machine.now.gates) → HaveCells library.now (take (k + 1) machine.now.gates) }
{
    has_cell(library, machine.gate(k).kind)
}

// Whether the library has a cell of this kind.
#[tactic(auto, using(crate::proofs::CellsThere::fit_there))]
fn has_cell(library: &Library, kind: FitKind) -> bool
    ensures { result ≡ true → HasCell library.now kind }
{
    library.fit(kind).is_some()
}

// Whether no net of a machine has this name, and none that insertion adds gets it.
#[tactic(auto, using(crate::proofs::NewName::new_name))]
fn is_new(machine: &Machine, name: &Name) -> bool
    ensures { result ≡ true → All (λ other. other ≢ name.now) (machine.now.circuit.names ++ gate_names machine.now) }
{
    let known = machine.netlist().find(name.bytes()).is_some();
    let begins = name.bytes().starts_with(machine.prefix());
    !known && !begins
}
