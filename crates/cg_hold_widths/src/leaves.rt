//! The masks of the variables of a group of registers.

ghost use Rattle.std.specs.Prelude.{◌≡◌, ◌<◌, ◌≤◌, ◌+◌, ◌&&◌, not, ℕ, length, nat_eq, IfOk, OnOk};
ghost use Rattle.std.specs.List.{All, count_by, list_any};
ghost use Rattle.cg_hold_widths.specs.inner.Marked.{leaf_count, net_has, own_count, register_has};
ghost use Rattle.cg_hold_widths.specs.inner.Masks.{has_bit, mask_at};

use crate::masks::Masks;
use cg_machine::machine::Machine;
use cg_net::id::{NetId, RegId};
use cg_netlist_cone::cone::Cone;
use std::alloc::{AllocError, Global};

/// A mask for each variable of a group of registers: those of the data inputs and of the registers at the edge of the union of
/// their cones, and for each register of the group one with its bit, where it is not at the edge of its own cone.
pub(crate) fn leaves(
    alloc: Global,
    machine: &Machine,
    regs: &[RegId],
    cone: &Cone,
    masks: &Masks,
) -> Result<Vec<u64>, AllocError>
    requires few { length regs.now ≤ 64 }
    requires registers { All (λ r. r < length machine.now.circuit.registers) regs.now }
    requires edge { All (λ r. r < length machine.now.circuit.registers) cone.now.registers }
    ensures { IfOk result (λ leaves. (i : ℕ) → count_by (has_bit i) leaves.items ≡ leaf_count machine.now masks.now regs.now cone.now i) }
{
    let mut leaves = Vec::new(alloc);
    push_inputs(cone.inputs.as_slice(), masks, &mut leaves)?;
    push_registers(machine, cone.registers.as_slice(), masks, &mut leaves)?;
    push_own(machine, regs, masks, &mut leaves)?;
    Ok(leaves)
}

/// Puts the masks of data inputs behind the others.
fn push_inputs(inputs: &[NetId], masks: &Masks, leaves: &mut Vec<u64>) -> Result<(), AllocError>
    ensures { OnOk result ((i : ℕ) → count_by (has_bit i) leaves.new.items ≡ count_by (has_bit i) leaves.old.items + count_by (net_has masks.now i) inputs.now) }
{
    for net in inputs {
        leaves.push(masks.of(*net))?;
    }
    Ok(())
}

/// Puts the masks of registers behind the others.
fn push_registers(
    machine: &Machine,
    regs: &[RegId],
    masks: &Masks,
    leaves: &mut Vec<u64>,
) -> Result<(), AllocError>
    requires { All (λ r. r < length machine.now.circuit.registers) regs.now }
    ensures { OnOk result ((i : ℕ) → count_by (has_bit i) leaves.new.items ≡ count_by (has_bit i) leaves.old.items + count_by (register_has machine.now masks.now i) regs.now) }
{
    for reg in regs {
        leaves.push(register_mask(machine, *reg, masks))?;
    }
    Ok(())
}

/// Puts behind the others for each register of a group a mask with its bit, where none of the nets has it that show the register's
/// bit.
fn push_own(
    machine: &Machine,
    regs: &[RegId],
    masks: &Masks,
    leaves: &mut Vec<u64>,
) -> Result<(), AllocError>
    requires few { length regs.now ≤ 64 }
    requires registers { All (λ r. r < length machine.now.circuit.registers) regs.now }
    ensures { OnOk result ((i : ℕ) → count_by (has_bit i) leaves.new.items ≡ count_by (has_bit i) leaves.old.items + own_count machine.now masks.now regs.now i) }
{
    for place in 0..regs.len() {
        leaves.push(own_mask(machine, regs[place], place, masks))?;
    }
    Ok(())
}

/// A mask with the bit of a register, unless a net has it that shows the register's bit.
fn own_mask(machine: &Machine, reg: RegId, place: usize, masks: &Masks) -> u64
    requires place { place < 64 }
    requires register { reg < length machine.now.circuit.registers }
    ensures { (i : ℕ) → has_bit i result ≡ (nat_eq i place && not (register_has machine.now masks.now i reg)) }
{
    let shown = register_mask(machine, reg, masks);
    (1 << place) & !shown
}

/// The bits of the nets at which a register shows its bit.
fn register_mask(machine: &Machine, reg: RegId, masks: &Masks) -> u64
    requires { reg < length machine.now.circuit.registers }
    ensures { (i : ℕ) → has_bit i result ≡ register_has machine.now masks.now i reg }
{
    let netlist = machine.netlist();
    if machine.is_delay(reg) {
        let (_, output) = machine.delay(reg);
        masks.of(output)
    } else {
        outputs_mask(netlist.register(reg).outputs, masks)
    }
}

/// The bits of these outputs.
fn outputs_mask(outputs: &[(NetId, bool)], masks: &Masks) -> u64
    ensures { (i : ℕ) → has_bit i result ≡ list_any (λ output. net_has masks.now i output.0) outputs.now }
{
    let mut mask = 0;
    for place in 0..outputs.len() {
        let (net, _) = outputs[place];
        mask |= masks.of(net);
    }
    mask
}
