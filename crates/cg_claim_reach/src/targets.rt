//! Where registers may show, as names of targets.

ghost use Rattle.std.specs.Prelude.{◌≡◌, ◌<◌, ◌++◌, ◌∷◌, [], ℕ, if◌then◌else◌, length, map, IfOk, OnOk};
ghost use Rattle.std.specs.List.{filter, list_any, range_with_len};
ghost use Rattle.std.specs.Option.{option_to_list};
ghost use Rattle.cg_machine.specs.Machine.{enable_of};
ghost use Rattle.cg_claim.specs.Reach.{inputs_of_register, registers_of};
ghost use Rattle.cg_claim.specs.declared.name.ClaimName.TheVariants.{Next, Output};
ghost use Rattle.cg_net.specs.NetSets.{is_in};
ghost use Rattle.cg_claim_reach.specs.inner.Spreading.{AreOutputReaders, AreRegisterReaders, is_next_marked, is_output_marked};
ghost use Rattle.cg_claim_reach.specs.inner.Spreading.{is_register_marked, marked_outputs};

use crate::own::asks_own;
use crate::readers::Readers;
use crate::sources::{push_all, set_of};
use crate::spread::is_any_found;
use cg_claim::name::ClaimName;
use cg_machine::machine::Machine;
use cg_machine::stage::NetLit;
use cg_net::id::RegId;
use cg_net::net_set::NetSet;
use cg_netlist_cone::ascending::ascending;
use indexmap::IndexSet;
use std::alloc::{AllocError, Global};

/// Puts the names of the outputs that stand at nets found behind the others, in order.
pub(crate) fn push_output_names(
    alloc: Global,
    machine: &Machine,
    readers: &Readers,
    found: &NetSet,
    names: &mut Vec<ClaimName>,
) -> Result<(), AllocError>
    requires { AreOutputReaders machine.now readers.now }
    ensures { OnOk result (names.new.items ≡ names.old.items ++ marked_outputs (is_in found.now) 0 machine.now.circuit.outputs) }
{
    let outputs = outputs_found(alloc, machine, readers, found)?;
    push_outputs(&outputs, names)
}

/// The outputs that stand at nets found, in order, by the readers of these nets.
fn outputs_found(
    alloc: Global,
    machine: &Machine,
    readers: &Readers,
    found: &NetSet,
) -> Result<Vec<u32>, AllocError>
    requires { AreOutputReaders machine.now readers.now }
    ensures { IfOk result (λ outputs. outputs.items ≡ filter (is_output_marked machine.now (is_in found.now)) (range_with_len 0 (length machine.now.circuit.outputs))) }
{
    let mut numbers = Vec::new(alloc);
    for place in 0..found.len() {
        push_outputs_at(machine, readers.of(found.net(place)), found, &mut numbers)?;
    }
    Ok(ascending(numbers))
}

/// Puts those of these outputs that stand at a net found behind the numbers.
fn push_outputs_at(
    machine: &Machine,
    readers: &[u32],
    found: &NetSet,
    numbers: &mut Vec<u32>,
) -> Result<(), AllocError>
    ensures { OnOk result (numbers.new.items ≡ numbers.old.items ++ filter (is_output_marked machine.now (is_in found.now)) readers.now) }
{
    for reader in readers {
        push_if(is_output_found(machine, *reader, found), *reader, numbers)?;
    }
    Ok(())
}

/// Whether an output stands at a net found.
fn is_output_found(machine: &Machine, output: u32, found: &NetSet) -> bool
    ensures { result ≡ is_output_marked machine.now (is_in found.now) output }
{
    let outputs = machine.netlist().outputs();
    match outputs.get(output as usize) {
        Some(net) => found.contains(*net),
        None => false,
    }
}

/// Puts the names of the next bits that ask for a net found, or for the bit of one of these registers, behind the others, in
/// order.
pub(crate) fn push_next_names(
    alloc: Global,
    machine: &Machine,
    readers: &Readers,
    found: &NetSet,
    regs: &[RegId],
    names: &mut Vec<ClaimName>,
) -> Result<(), AllocError>
    requires { AreRegisterReaders machine.now readers.now }
    ensures { OnOk result (names.new.items ≡ names.old.items
        ++ map Next (filter (λ r. is_next_marked machine.now (is_in found.now) (is_in regs.now r) r) (registers_of machine.now))) }
{
    let set = set_of(alloc, regs)?;
    let registers = registers_found(alloc, machine, readers, found, regs, &set)?;
    push_nexts(&registers, names)
}

/// The registers, in order, whose next bits ask for a net found, or for the bit of a register of the set, which has these
/// registers; by the readers of the nets found.
fn registers_found(
    alloc: Global,
    machine: &Machine,
    readers: &Readers,
    found: &NetSet,
    regs: &[RegId],
    set: &IndexSet<u32>,
) -> Result<Vec<u32>, AllocError>
    requires readers { AreRegisterReaders machine.now readers.now }
    requires set { (r : ℕ) → is_in regs.now r ≡ is_in set.now.keys r }
    ensures { IfOk result (λ registers. registers.items ≡ filter (λ r. is_next_marked machine.now (is_in found.now) (is_in set.now.keys r) r) (registers_of machine.now)) }
{
    let mut own = Vec::new(alloc);
    push_all(regs, &mut own)?;
    let mut numbers = Vec::new(alloc);
    push_registers_at(machine, &own, found, set, &mut numbers)?;
    for place in 0..found.len() {
        push_registers_at(
            machine,
            readers.of(found.net(place)),
            found,
            set,
            &mut numbers,
        )?;
    }
    Ok(ascending(numbers))
}

/// Puts those of these registers behind the numbers whose next bits ask for a net found, or for the bit of a register of the
/// set.
fn push_registers_at(
    machine: &Machine,
    readers: &[u32],
    found: &NetSet,
    set: &IndexSet<u32>,
    numbers: &mut Vec<u32>,
) -> Result<(), AllocError>
    ensures { OnOk result (numbers.new.items ≡ numbers.old.items ++ filter (is_register_marked machine.now (is_in found.now) (is_in set.now.keys)) readers.now) }
{
    for reader in readers {
        push_if(
            is_register_found(machine, *reader, found, set),
            *reader,
            numbers,
        )?;
    }
    Ok(())
}

/// Whether a number is a register of which the next bit asks for a net found, or for the bit of a register of the set.
fn is_register_found(machine: &Machine, number: u32, found: &NetSet, set: &IndexSet<u32>) -> bool
    ensures { result ≡ is_register_marked machine.now (is_in found.now) (is_in set.now.keys) number }
{
    number < machine.registers()
        && is_next_found(machine, found, set.contains(&number), RegId::new(number))
}

/// Whether the next bit of a register asks for a net found, or, where the register is inside, for its bit.
fn is_next_found(machine: &Machine, found: &NetSet, inside: bool, reg: RegId) -> bool
    requires { reg < length machine.now.circuit.registers }
    ensures { result ≡ is_next_marked machine.now (is_in found.now) inside reg }
{
    let own = inside && asks_own(machine, reg);
    let input = are_inputs_found(machine, found, reg);
    let enable = is_enable_found(machine, found, reg);
    own | (input | enable)
}

/// Whether the enable of a register was found.
fn is_enable_found(machine: &Machine, found: &NetSet, reg: RegId) -> bool
    requires { reg < length machine.now.circuit.registers }
    ensures { result ≡ list_any (is_in found.now) (option_to_list (enable_of machine.now reg)) }
{
    match machine.enable(reg) {
        Some(enable) => found.contains(enable),
        None => false,
    }
}

/// Whether an input of a register was found.
fn are_inputs_found(machine: &Machine, found: &NetSet, reg: RegId) -> bool
    requires { reg < length machine.now.circuit.registers }
    ensures { result ≡ list_any (is_in found.now) (inputs_of_register machine.now reg) }
{
    let netlist = machine.netlist();
    if machine.is_delay(reg) {
        let (net, _) = machine.delay(reg);
        found.contains(net)
    } else {
        is_any_found(netlist.register(reg).inputs, found)
    }
}

/// Puts a number behind the others, or not.
fn push_if(wanted: bool, number: u32, numbers: &mut Vec<u32>) -> Result<(), AllocError>
    ensures { OnOk result (numbers.new.items ≡ numbers.old.items ++ (if wanted then number ∷ [] else [])) }
{
    if wanted {
        numbers.push(number)?;
    }
    Ok(())
}

/// Whether a net of the joined enable was found.
pub(crate) fn is_joined_found(enables: &[NetLit], found: &NetSet) -> bool
    ensures { result ≡ list_any (λ l. is_in found.now l.0) enables.now }
{
    let mut any = false;
    for k in 0..enables.len() {
        let literal = enables[k];
        any = any | found.contains(literal.net);
    }
    any
}

/// Puts the names of these outputs behind the others.
fn push_outputs(outputs: &[u32], names: &mut Vec<ClaimName>) -> Result<(), AllocError>
    ensures { OnOk result (names.new.items ≡ names.old.items ++ map Output outputs.now) }
{
    for output in outputs {
        names.push(ClaimName::Output(*output))?;
    }
    Ok(())
}

/// Puts the names of the next bits of these registers behind the others.
fn push_nexts(registers: &[u32], names: &mut Vec<ClaimName>) -> Result<(), AllocError>
    ensures { OnOk result (names.new.items ≡ names.old.items ++ map Next registers.now) }
{
    for register in registers {
        names.push(ClaimName::Next(RegId::new(*register)))?;
    }
    Ok(())
}

/// Puts a name behind the others, or not.
pub(crate) fn push_name_if(
    wanted: bool,
    name: ClaimName,
    names: &mut Vec<ClaimName>,
) -> Result<(), AllocError>
    ensures { OnOk result (names.new.items ≡ names.old.items ++ (if wanted then name ∷ [] else [])) }
{
    if wanted {
        names.push(name)?;
    }
    Ok(())
}
