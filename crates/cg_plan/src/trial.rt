//! A stage that is tried on a machine.

ghost use Rattle.std.specs.Prelude.{IfOk, IfErr};
ghost use Rattle.cg_machine.specs.Machine.{IsMachine};
ghost use Rattle.cg_plan.specs.Trial.{IsRefused, IsTried};
ghost use Rattle.cg_stage_laws.specs.Stages.{Fits};

use crate::judge::{Entry, Judge, Rules};
use cg_cell::library::Library;
use cg_claim_reach::fanout::Fanout;
use cg_machine::machine::Machine;
use cg_machine::stage::Stage;
use cg_netlist::fault::AddFault;
use cg_plan_laws::certificate::Certificate;
use cg_plan_laws::outcome::Outcome;
use cg_plan_laws::settings::Settings;
use std::alloc::Global;

/// Tries a stage that fits the machine, as the stage of this number, and inserts it where it deserves it.
///
/// An inserted stage keeps the outputs of every run of the machine. Where the settings ask for proofs, the certificates of its
/// claims are put behind `into`, one for each claim in order; else `into` stays as it is. Any other outcome leaves the machine
/// and `into` as they are.
///
/// It is refused by `Limit(ClaimNodes)` where the stage is large enough, the library has its cells, and a claim has more than
/// 65,536 leaves and and-nodes while neither it nor one before it is too wide; and by `Limit(Nets)` or `Limit(Registers)` where
/// what would be added passes that limit. After a refusal `into` and all enables are as before, and gates and delay registers
/// that no enable reads may have been added behind what the machine has, and nothing else.
pub fn try_stage(
    alloc: Global,
    machine: &mut Machine,
    number: u32,
    stage: &Stage,
    library: &Library,
    settings: &Settings,
    into: &mut Vec<Certificate>,
) -> Result<Outcome, AddFault>
    requires { Fits machine.old stage.now }
    ensures tried { IfOk result (λ outcome. IsTried library.now settings.now number machine.old stage.now into.old.items outcome machine.new into.new.items) }
    ensures refused { IfErr result (λ fault. IsRefused library.now settings.now machine.old stage.now into.old.items fault machine.new into.new.items) }
    ensures whole { IsMachine machine.new }
{
    let mut judge = Judge::new(alloc);
    let mut fanout = Fanout::new(alloc);
    let entry = Entry {
        number,
        stage,
        cleared: false,
    };
    let rules = Rules { library, settings };
    let result = judge.try_stage(machine, &mut fanout, &entry, &rules, into);
    // By calls: their many parts would else be dropped step by step in each goal of this function.
    drop(fanout);
    drop(judge);
    result
}
