//! The nets at which the cones of a group of registers begin.

ghost use Rattle.std.specs.Prelude.{◌≡◌, ◌<◌, ◌≤◌, ◌++◌, ◌||◌, ◌&&◌, ℕ, length, nat_eq, IfOk, OnOk};
ghost use Rattle.std.specs.List.{All, flat_map};
ghost use Rattle.cg_claim.specs.Reach.{next_nets};
ghost use Rattle.cg_hold_widths.specs.inner.Marked.{next_nets_at};
ghost use Rattle.cg_hold_widths.specs.inner.Masks.{AreMasks, has_bit, mask_at};
ghost use Rattle.cg_net.specs.NetSets.{is_in};

use crate::masks::Masks;
use cg_claim_reach::roots::push_next;
use cg_machine::machine::Machine;
use cg_net::id::{NetId, RegId};
use std::alloc::{AllocError, Global};

/// The nets that the next bits of a group of registers ask for. Each gets bit `i` where register `i` asks for it.
pub(crate) fn roots(
    alloc: Global,
    machine: &Machine,
    regs: &[RegId],
    masks: &mut Masks,
) -> Result<Vec<NetId>, AllocError>
    requires few { length regs.now ≤ 64 }
    requires registers { All (λ r. r < length machine.now.circuit.registers) regs.now }
    requires clear { (y : ℕ) → mask_at masks.old y ≡ 0 }
    ensures roots { IfOk result (λ roots. roots.items ≡ flat_map (next_nets machine.now) regs.now) }
    ensures masks { OnOk result (AreMasks (next_nets_at machine.now regs.now) masks.new) }
{
    let mut roots = Vec::new(alloc);
    for place in 0..regs.len() {
        push_roots(machine, regs[place], place, &mut roots, masks)?;
    }
    Ok(roots)
}

/// Puts the nets behind the others that the next bit of a register asks for, and gives them its bit.
fn push_roots(
    machine: &Machine,
    reg: RegId,
    place: usize,
    roots: &mut Vec<NetId>,
    masks: &mut Masks,
) -> Result<(), AllocError>
    requires place { place < 64 }
    requires register { reg < length machine.now.circuit.registers }
    ensures roots { OnOk result (roots.new.items ≡ roots.old.items ++ next_nets machine.now reg) }
    ensures masks { OnOk result ((i y : ℕ) → has_bit i (mask_at masks.new y) ≡ (has_bit i (mask_at masks.old y) || (is_in (next_nets machine.now reg) y && nat_eq i place))) }
{
    let first = roots.len();
    push_next(machine, reg, roots)?;
    masks.add_all(&roots[first..], 1 << place)?;
    Ok(())
}
