//! The nets at which registers can show in the same cycle.

ghost use Rattle.std.specs.Prelude.{◌≡◌, ◌<◌, ◌||◌, ◌∷◌, [], ℕ, Some, length, map, slice_get, OnOk};
ghost use Rattle.std.specs.List.{All, list_any};
ghost use Rattle.cg_machine.specs.Machine.{walk_of};
ghost use Rattle.cg_netlist.specs.Circuit.{LogicCell};
ghost use Rattle.cg_net.specs.NetSets.{is_in};
ghost use Rattle.cg_claim_reach.specs.inner.Spreading.{AreCellReaders, is_shown, led_by, led_by_all, led_on, shows, spread};

use crate::readers::Readers;
use cg_machine::machine::Machine;
use cg_net::id::{CellId, NetId, RegId};
use cg_net::net_set::NetSet;
use std::alloc::AllocError;

/// Finds the nets at which these registers can show in the same cycle: those that show their bits, and with an input of a
/// logic cell its output. It looks at the readers of the nets that it finds, among which those cells are that read them.
pub(crate) fn spread(
    machine: &Machine,
    readers: &Readers,
    regs: &[RegId],
    found: &mut NetSet,
) -> Result<(), AllocError>
    requires registers { All (λ r. r < length machine.now.circuit.registers) regs.now }
    requires readers { AreCellReaders machine.now readers.now }
    requires empty { found.old ≡ [] }
    ensures { OnOk result ((y : ℕ) → is_in found.new y ≡ spread (walk_of machine.now) (is_shown machine.now regs.now) y) }
{
    let _netlist = machine.netlist();
    find_shown(machine, regs, found)?;
    let mut next = 0;
    while next < found.len() {
        let net = found.net(next);
        lead_on(machine, readers.of(net), found)?;
        next += 1;
    }
    Ok(())
}

/// Finds the nets too that show the bits of these registers.
fn find_shown(machine: &Machine, regs: &[RegId], found: &mut NetSet) -> Result<(), AllocError>
    requires { All (λ r. r < length machine.now.circuit.registers) regs.now }
    ensures { OnOk result ((y : ℕ) → is_in found.new y ≡ (is_in found.old y || is_shown machine.now regs.now y)) }
{
    for reg in regs {
        find_register(machine, *reg, found)?;
    }
    Ok(())
}

/// Finds the nets too that show the bit of a register.
fn find_register(machine: &Machine, reg: RegId, found: &mut NetSet) -> Result<(), AllocError>
    requires { reg < length machine.now.circuit.registers }
    ensures { OnOk result ((y : ℕ) → is_in found.new y ≡ (is_in found.old y || shows machine.now y reg)) }
{
    let netlist = machine.netlist();
    if machine.is_delay(reg) {
        let (_, output) = machine.delay(reg);
        find_net(output, found)
    } else {
        find_outputs(netlist.register(reg).outputs, found)
    }
}

/// Finds a net too.
fn find_net(net: NetId, found: &mut NetSet) -> Result<(), AllocError>
    ensures { OnOk result ((y : ℕ) → is_in found.new y ≡ (is_in found.old y || is_in (net ∷ []) y)) }
{
    found.insert(net)
}

/// Finds these outputs too.
fn find_outputs(outputs: &[(NetId, bool)], found: &mut NetSet) -> Result<(), AllocError>
    ensures { OnOk result ((y : ℕ) → is_in found.new y ≡ (is_in found.old y || is_in (map (λ output. output.0) outputs.now) y)) }
{
    for place in 0..outputs.len() {
        let (net, _) = outputs[place];
        find_net(net, found)?;
    }
    Ok(())
}

/// Finds the outputs too of those of these cells that have an input among the nets found, one cell after another.
fn lead_on(machine: &Machine, readers: &[u32], found: &mut NetSet) -> Result<(), AllocError>
    ensures { OnOk result (found.new ≡ led_by_all machine.now found.old readers.now) }
{
    for reader in readers {
        lead(machine, *reader, found)?;
    }
    Ok(())
}

/// Finds the output too of a cell that has an input among the nets found.
fn lead(machine: &Machine, number: u32, found: &mut NetSet) -> Result<(), AllocError>
    ensures { OnOk result (found.new ≡ led_by machine.now found.old number) }
{
    if number < machine.cells() {
        lead_through(machine, number, found)?;
    }
    Ok(())
}

/// The same by a cell of the machine.
fn lead_through(machine: &Machine, number: u32, found: &mut NetSet) -> Result<(), AllocError>
    requires { number < length machine.now.circuit.cells }
    ensures { OnOk result ((cell : LogicCell ℕ) → slice_get machine.now.circuit.cells number ≡ Some cell → found.new ≡ led_on cell found.old) }
{
    let id = CellId::new(number);
    let output = machine.output_of(id);
    // Its inputs are looked at once, however many of them were found.
    if found.contains(output) {
        return Ok(());
    }
    if is_any_found(machine.inputs_of(id), found) {
        found.insert(output)?;
    }
    Ok(())
}

/// Whether one of these nets was found.
pub(crate) fn is_any_found(nets: &[NetId], found: &NetSet) -> bool
    ensures { result ≡ list_any (is_in found.now) nets.now }
{
    let mut any = false;
    for net in nets {
        any = any | found.contains(*net);
    }
    any
}
