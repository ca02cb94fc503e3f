//! A cycle of a machine.

ghost use Rattle.std.specs.Prelude.{◌≡◌, length, IfOk};
ghost use Rattle.cg_machine.specs.Machine.{IsInputs, IsState};

use crate::bits::bits_in;
use cg_machine::machine::Machine;
use cg_net::id::RegId;
use std::alloc::Global;

/// The bits of the registers of a machine after a cycle, from those before it and those of the data inputs.
pub fn cycle_text(
    alloc: Global,
    machine: &Machine,
    state: &str,
    inputs: &str,
) -> Result<Vec<u8>, ()> {
    let state = bits_in(alloc, state)?;
    let inputs = bits_in(alloc, inputs)?;
    if state.len() != machine.registers() as usize
        || inputs.len() != machine.netlist().data_inputs().len()
    {
        return Err(());
    }
    let values = values(alloc, machine, state.as_slice(), inputs.as_slice())?;
    next_text(alloc, machine, state.as_slice(), values.as_slice())
}

/// The bits of the nets of a machine.
fn values(
    alloc: Global,
    machine: &Machine,
    state: &[bool],
    inputs: &[bool],
) -> Result<Vec<bool>, ()>
    requires state { IsState machine.now state.now }
    requires inputs { IsInputs machine.now inputs.now }
    ensures { IfOk result (λ values. length values.items ≡ length machine.now.circuit.names) }
{
    let mut values = Vec::new(alloc);
    values
        .resize(machine.nets() as usize, false)
        .map_err(|_| ())?;
    let mut scratch = Vec::new(alloc);
    scratch
        .resize(machine.widest() as usize, false)
        .map_err(|_| ())?;
    machine.evaluate(state, inputs, values.as_mut_slice(), scratch.as_mut_slice());
    Ok(values)
}

/// The next bits of all registers, as a line.
fn next_text(
    alloc: Global,
    machine: &Machine,
    state: &[bool],
    values: &[bool],
) -> Result<Vec<u8>, ()>
    requires state { IsState machine.now state.now }
    requires values { length values.now ≡ length machine.now.circuit.names }
{
    let mut text = Vec::new(alloc);
    for number in 0..machine.registers() {
        let bit = machine.next_value(RegId::new(number), state, values);
        text.push(if bit { b'1' } else { b'0' }).map_err(|_| ())?;
    }
    text.push(b'\n').map_err(|_| ())?;
    Ok(text)
}
