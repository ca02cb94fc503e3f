//! What reads the nets of a machine, and with that where registers may show.

ghost use Rattle.std.specs.Prelude.{◌≡◌, ◌<◌, [], length, map, IfOk, OnOk};
ghost use Rattle.std.specs.List.{All};
ghost use Rattle.cg_claim.specs.Targets.{unseen_targets};
ghost use Rattle.cg_machine.specs.Machine.{MachineData};
ghost use Rattle.cg_claim_reach.specs.Fanout.{Grows, Knows};
ghost use Rattle.cg_claim_reach.specs.inner.Learning.{KnowsAll};

use crate::spread::spread;
use crate::tables::Tables;
use crate::targets::{is_joined_found, push_name_if, push_next_names, push_output_names};
use cg_claim::name::ClaimName;
use cg_machine::machine::Machine;
use cg_machine::stage::NetLit;
use cg_net::id::{NetId, RegId};
use cg_net::net_set::NetSet;
use std::alloc::{AllocError, Global};
use std::marker::Model;

/// What reads the nets of a machine that grows: tables of the machine's size, which the first search makes and the next ones
/// grow, and marks that each search clears. So a search costs what it reaches.
///
/// It is told which registers get which net as their enable. Clauses see the tables.
#[derive(Drop)]
pub struct Fanout {
    alloc: Global,
    tables: Tables,
    found: NetSet,
}

impl Model for Fanout {
    ghost use Rattle.std.specs.Prelude.{◌≡◌, []};
    ghost use Rattle.cg_claim_reach.specs.declared.tables.Tables.{Tables};

    ghost Value = { Tables };

    ghost view = { λ f. f.tables };

    ghost invariant = { λ f. f.found ≡ [] };
}

impl Fanout {
    /// Of no machine yet; takes no memory.
    pub fn new(alloc: Global) -> Fanout
        ensures { (m : MachineData) → Knows m result }
    {
        Fanout {
            alloc,
            tables: Tables::new(alloc),
            found: NetSet::new(alloc),
        }
    }

    /// The names of the targets that have one of these registers in their cone, in order: outputs, next bits of registers,
    /// and the joined enable. The others cannot show the registers.
    ///
    /// It costs what these registers reach, beside what was added to the machine since the search before.
    pub fn unseen_targets(
        &mut self,
        machine: &Machine,
        enables: &[NetLit],
        regs: &[RegId],
    ) -> Result<Vec<ClaimName>, AllocError>
        requires knows { Knows machine.now self.old }
        requires registers { All (λ r. r < length machine.now.circuit.registers) regs.now }
        ensures names { IfOk result (λ names. names.items ≡ map (λ t. t.0) (unseen_targets machine.now enables.now regs.now)) }
        ensures knows { OnOk result (Knows machine.now self.new) }
    {
        self.tables.learn(machine)?;
        let names = names(
            self.alloc,
            machine,
            &self.tables,
            enables,
            regs,
            &mut self.found,
        );
        self.found.clear();
        names
    }

    /// Notes that these registers may get a net as their enable.
    pub fn note_enable(&mut self, net: NetId, regs: &[RegId]) -> Result<(), AllocError>
        ensures { OnOk result ((m n : MachineData) → Knows m self.old → Grows m n regs.now net → Knows n self.new) }
    {
        self.tables.note_enable(net, regs)
    }
}

/// The names of the targets that have one of these registers in their cone, with no net found before.
fn names(
    alloc: Global,
    machine: &Machine,
    tables: &Tables,
    enables: &[NetLit],
    regs: &[RegId],
    found: &mut NetSet,
) -> Result<Vec<ClaimName>, AllocError>
    requires knows { KnowsAll machine.now tables.now }
    requires registers { All (λ r. r < length machine.now.circuit.registers) regs.now }
    requires empty { found.old ≡ [] }
    ensures { IfOk result (λ names. names.items ≡ map (λ t. t.0) (unseen_targets machine.now enables.now regs.now)) }
{
    spread(machine, &tables.cells, regs, found)?;
    let joined = is_joined_found(enables, found);
    let mut names = Vec::new(alloc);
    push_output_names(alloc, machine, &tables.outputs, found, &mut names)?;
    push_next_names(alloc, machine, &tables.registers, found, regs, &mut names)?;
    push_name_if(joined, ClaimName::Enable, &mut names)?;
    Ok(names)
}
