//! How wide the hold claims of registers are.

ghost use Rattle.std.specs.Prelude.{◌≡◌, ◌<◌, ◌≤◌, ◌++◌, ℕ, length, map, IfOk, OnOk};
ghost use Rattle.std.specs.List.{All};
ghost use Rattle.cg_hold_widths.specs.inner.Masks.{mask_at};
ghost use Rattle.cg_stage_list_laws.specs.HoldList.{hold_width};

use crate::back::lead_back;
use crate::counts::counts;
use crate::leaves::leaves;
use crate::masks::Masks;
use crate::roots::roots;
use cg_machine::cone::ConeFinder;
use cg_machine::machine::Machine;
use cg_net::id::RegId;
use std::alloc::{AllocError, Global};

/// How many registers share a walk.
const GROUP: usize = 64;

/// Measures how wide the hold claims of registers are.
///
/// It keeps its marks and masks for nets from call to call; each call clears those that it has set.
#[derive(Drop)]
pub struct Widths {
    alloc: Global,
    cones: ConeFinder,
    masks: Masks,
    ghost clear: { (y : ℕ) → mask_at masks y ≡ 0 },
}

impl Widths {
    /// Nothing is measured yet; takes no memory.
    pub fn new(alloc: Global) -> Widths {
        Widths {
            alloc,
            cones: ConeFinder::new(alloc),
            masks: Masks::new(alloc),
        }
    }

    /// How many variables the hold claims of each of these registers have, of any of the machine's. For each 64 of them it costs
    /// the union of the cones of what their next bits ask for, and beside it the variables that it counts.
    pub fn of(&mut self, machine: &Machine, regs: &[RegId]) -> Result<Vec<u64>, AllocError>
        requires { All (λ r. r < length machine.now.circuit.registers) regs.now }
        ensures { IfOk result (λ widths. widths.items ≡ map (hold_width machine.now) regs.now) }
    {
        let mut widths = Vec::with_capacity(self.alloc, regs.len())?;
        let mut next = 0;
        while next < regs.len() {
            let past = regs.len().min(next + GROUP);
            self.push_group(machine, &regs[next..past], &mut widths)?;
            next = past;
        }
        Ok(widths)
    }

    /// Puts the widths of a group of registers behind the others.
    fn push_group(
        &mut self,
        machine: &Machine,
        regs: &[RegId],
        widths: &mut Vec<u64>,
    ) -> Result<(), AllocError>
        requires few { length regs.now ≤ 64 }
        requires registers { All (λ r. r < length machine.now.circuit.registers) regs.now }
        ensures { OnOk result (widths.new.items ≡ widths.old.items ++ map (hold_width machine.now) regs.now) }
    {
        let pushed = push_widths(
            self.alloc,
            machine,
            regs,
            &mut self.cones,
            &mut self.masks,
            widths,
        );
        self.masks.clear();
        pushed
    }
}

/// Puts the widths of a group of registers behind the others, where all masks are 0.
fn push_widths(
    alloc: Global,
    machine: &Machine,
    regs: &[RegId],
    cones: &mut ConeFinder,
    masks: &mut Masks,
    widths: &mut Vec<u64>,
) -> Result<(), AllocError>
    requires few { length regs.now ≤ 64 }
    requires registers { All (λ r. r < length machine.now.circuit.registers) regs.now }
    requires clear { (y : ℕ) → mask_at masks.old y ≡ 0 }
    ensures { OnOk result (widths.new.items ≡ widths.old.items ++ map (hold_width machine.now) regs.now) }
{
    let _netlist = machine.netlist();
    let roots = roots(alloc, machine, regs, masks)?;
    let cone = cones.find(machine, &roots)?;
    lead_back(machine, cone.cells.as_slice(), masks)?;
    let leaves = leaves(alloc, machine, regs, &cone, masks)?;
    let counts = counts(alloc, &leaves)?;
    for place in 0..regs.len() {
        widths.push(counts[place])?;
    }
    Ok(())
}
