//! Whether a register's next bit asks for the register's own bit.

ghost use Rattle.std.specs.Prelude.{◌≡◌, ◌<◌, ℕ, length, slice_get, Some, false};
ghost use Rattle.std.specs.List.{count_by};
ghost use Rattle.std.specs.Option.{option_map_or};
ghost use Rattle.cg_cell.specs.Pins.{is_data};
ghost use Rattle.cg_cell.specs.Term.{has_input};
ghost use Rattle.cg_netlist.specs.Circuit.{RegisterCell};
ghost use Rattle.cg_claim.specs.Reach.{next_asks_own, reads_own};

use cg_cell::cell::CellType;
use cg_machine::machine::Machine;
use cg_net::id::RegId;
use cg_netlist::netlist::Netlist;
use cg_netlist::parts::RegKind;

/// Whether the next bit of a register asks for its bit: where it has an enable, or its function names it.
pub fn asks_own(machine: &Machine, reg: RegId) -> bool
    requires { reg < length machine.now.circuit.registers }
    ensures { result ≡ next_asks_own machine.now reg }
{
    machine.enable(reg).is_some() || names_itself(machine, reg)
}

/// Whether the function of a register of the machine names the register's bit.
fn names_itself(machine: &Machine, reg: RegId) -> bool
    requires { reg < length machine.now.circuit.registers }
    ensures { result ≡ option_map_or reads_own (slice_get machine.now.circuit.registers reg) false }
{
    let netlist = machine.netlist();
    if machine.is_delay(reg) {
        let _delay = machine.delay(reg);
        false
    } else {
        reads_own(netlist, reg)
    }
}

/// Whether a register's function names its own bit.
pub fn reads_own(netlist: &Netlist, reg: RegId) -> bool
    requires { reg < length netlist.now.registers }
    ensures { (register : RegisterCell ℕ ℕ) → slice_get netlist.now.registers reg ≡ Some register → result ≡ reads_own register }
{
    let _registers = netlist.registers();
    match netlist.register(reg).kind {
        RegKind::Plain => false,
        RegKind::Cell(cell) => names_own(cell),
    }
}

/// Whether the function of a cell names the variable behind those of its Data pins.
fn names_own(cell: &CellType) -> bool
    ensures { result ≡ option_map_or (has_input (count_by is_data cell.now.pins)) cell.now.function false }
{
    match cell.function() {
        Some(function) => function.names(cell.inputs() as u32),
        None => false,
    }
}
