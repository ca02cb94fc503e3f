//! The guards of each register.

ghost use Rattle.std.specs.Prelude.{◌≡◌, ◌<◌, ◌+◌, ◌||◌, ◌&&◌, [], ℕ, not, nat_eq, length, replicate, IfOk, OnOk};
ghost use Rattle.cg_net.specs.NetSets.{is_in};
ghost use Rattle.cg_odc.specs.inner.Guarding.{AreGuards, list_at};

use crate::guard::guard_of;
use cg_list::Seq;
use cg_machine::machine::Machine;
use cg_net::id::RegId;
use cg_stage_groups::finder::SupportFinder;
use std::alloc::{AllocError, Global};

/// The guards of the registers of a netlist, by the numbers of both; a guard may stand there more than once.
#[derive(Drop)]
pub(crate) struct Guards {
    /// The guards of each register.
    pub lists: Vec<Seq<u32>>,
}

impl Guards {
    /// The guards of all registers of a machine's netlist.
    pub fn of(alloc: Global, machine: &Machine) -> Result<Guards, AllocError>
        ensures { IfOk result (λ guards. AreGuards machine.now machine.now.own_registers guards.lists.items) }
    {
        let mut finder = SupportFinder::new(alloc);
        let guards = Guards::found_by(alloc, machine, &mut finder);
        // By a call, as its parts would else be dropped one by one in the proof.
        drop(finder);
        guards
    }

    /// The same, in the buffers of a finder.
    fn found_by(
        alloc: Global,
        machine: &Machine,
        finder: &mut SupportFinder,
    ) -> Result<Guards, AllocError>
        ensures { IfOk result (λ guards. AreGuards machine.now machine.now.own_registers guards.lists.items) }
    {
        let netlist = machine.netlist();
        let mut guards = Guards::none(alloc, netlist.registers())?;
        for reg in 0..netlist.registers() {
            guards.note(machine, RegId::new(reg), finder)?;
        }
        Ok(guards)
    }

    /// No guards for each of `registers` registers.
    fn none(alloc: Global, registers: u32) -> Result<Guards, AllocError>
        ensures { IfOk result (λ guards. guards.lists.items ≡ replicate registers []) }
    {
        let mut lists = Vec::new(alloc);
        for _ in 0..registers {
            lists.push(Seq::new(alloc))?;
        }
        Ok(Guards { lists })
    }

    /// Notes the guard of what a register stands on, where there is one.
    fn note(
        &mut self,
        machine: &Machine,
        reg: RegId,
        finder: &mut SupportFinder,
    ) -> Result<(), AllocError>
        requires { reg < machine.now.own_registers }
        ensures { OnOk result (AreGuards machine.now reg self.old.lists.items → AreGuards machine.now (reg + 1) self.new.lists.items) }
    {
        if let Some(guard) = guard_of(machine, reg) {
            let support = finder.support_of(machine, reg)?;
            self.spread(support.registers.as_slice(), reg, guard)?;
        }
        Ok(())
    }

    /// Puts a guard to each register of the support of a register, other than that one and the guard.
    fn spread(&mut self, registers: &[RegId], reg: RegId, guard: RegId) -> Result<(), AllocError>
        ensures count { OnOk result (length self.new.lists.items ≡ length self.old.lists.items) }
        ensures each { OnOk result ((g : ℕ) → g < length self.old.lists.items → (q : ℕ)
            → is_in (list_at self.new.lists.items g) q ≡
            (is_in (list_at self.old.lists.items g) q || (is_in registers.now g && (not (nat_eq g reg) && not (nat_eq g guard)) && nat_eq q guard))) }
    {
        for under in registers {
            self.put_apart(*under, reg, guard)?;
        }
        Ok(())
    }

    /// Puts a guard to a register of the support of one, where it is neither that one nor the guard.
    fn put_apart(&mut self, under: RegId, reg: RegId, guard: RegId) -> Result<(), AllocError>
        ensures count { OnOk result (length self.new.lists.items ≡ length self.old.lists.items) }
        ensures each { OnOk result ((g : ℕ) → g < length self.old.lists.items → (q : ℕ)
            → is_in (list_at self.new.lists.items g) q ≡
            (is_in (list_at self.old.lists.items g) q || (nat_eq g under && (not (nat_eq g reg) && not (nat_eq g guard)) && nat_eq q guard))) }
    {
        if under.number() == reg.number() || under.number() == guard.number() {
            return Ok(());
        }
        self.put(under, guard)
    }

    /// Puts a guard to a register, where it is one of the netlist.
    fn put(&mut self, under: RegId, guard: RegId) -> Result<(), AllocError>
        ensures count { OnOk result (length self.new.lists.items ≡ length self.old.lists.items) }
        ensures each { OnOk result ((g : ℕ) → g < length self.old.lists.items → (q : ℕ)
            → is_in (list_at self.new.lists.items g) q ≡ (is_in (list_at self.old.lists.items g) q || (nat_eq g under && nat_eq q guard))) }
    {
        let place = under.number() as usize;
        if place < self.lists.len() {
            self.lists[place].push(guard.number())?;
        }
        Ok(())
    }
}
