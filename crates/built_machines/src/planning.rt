//! Stages and plans of a machine.

ghost use Rattle.std.specs.Prelude.{◌≡◌, ◌<◌, ◌∷◌, [], None, false, IfOk};
ghost use Rattle.cg_machine.specs.Machine.{IsNet, enable_of};
ghost use Rattle.cg_stage_list_laws.specs.HoldList.{hold_stage};

use crate::nets::{net_named, register_named};
use cg_cell::library::Library;
use cg_list::Seq;
use cg_machine::machine::Machine;
use cg_machine::stage::{NetLit, Stage, StageKind};
use cg_net::id::{NetId, RegId};
use cg_plan::plan::{Plan, make_plan};
use cg_plan::progress::Silent;
use cg_plan::trial::try_stage;
use cg_plan_laws::outcome::Outcome;
use cg_plan_laws::settings::Settings;
use cg_plan_text::lines::stage_lines;
use std::alloc::Global;

/// By what stages are tried.
fn settings() -> Settings {
    Settings {
        min: 1,
        width: 32,
        rounds: 1,
        test: false,
        proof: false,
    }
}

/// Tries the hold stage of one register and one net, which are named, and answers what came of it.
pub fn try_hold(
    alloc: Global,
    machine: &mut Machine,
    library: &Library,
    net: &str,
    register: &str,
) -> Result<&'static [u8], ()> {
    let net = net_named(machine, net)?;
    let register = register_named(machine, register)?;
    if machine.is_delay(register) || machine.enable(register).is_some() {
        return Err(());
    }
    let outcome = try_one(alloc, machine, library, net, register)?;
    let end: &'static [u8] = match outcome {
        Outcome::Inserted => b"inserted\n",
        Outcome::Refuted(_, _) => b"refuted\n",
        Outcome::Wide(_, _) => b"wide\n",
        Outcome::NeverIdle => b"neveridle\n",
        Outcome::Small(_) => b"small\n",
        Outcome::NoCell(_) => b"nocell\n",
    };
    Ok(end)
}

/// Tries without an enable.
fn try_one(
    alloc: Global,
    machine: &mut Machine,
    library: &Library,
    net: NetId,
    register: RegId,
) -> Result<Outcome, ()>
    requires net { IsNet machine.old net }
    requires own { register < machine.old.own_registers }
    requires free { enable_of machine.old register ≡ None }
{
    let stage = hold_stage(alloc, net, register)?;
    let mut certificates = Vec::new(alloc);
    try_stage(
        alloc,
        machine,
        1,
        &stage,
        library,
        &settings(),
        &mut certificates,
    )
    .map_err(|_| ())
}

/// The hold stage of one register and one net.
fn hold_stage(alloc: Global, net: NetId, register: RegId) -> Result<Stage, ()>
    ensures { IfOk result (λ stage. stage ≡ hold_stage (net, false) (register ∷ [])) }
{
    let literal = NetLit {
        net,
        inverted: false,
    };
    let mut enable = Seq::new(alloc);
    enable.push(literal).map_err(|_| ())?;
    let mut regs = Seq::new(alloc);
    regs.push(register).map_err(|_| ())?;
    Ok(Stage {
        kind: StageKind::Hold,
        enable,
        regs,
        own: None,
        guards: Seq::new(alloc),
    })
}

/// The lines of the plan of a machine.
pub fn plan_text(alloc: Global, machine: Machine, library: &Library) -> Result<Vec<u8>, ()> {
    let Ok(plan) = make_plan(alloc, machine, library, &settings(), None, &mut Silent) else {
        return Err(());
    };
    let text = lines_of(alloc, &plan);
    drop(plan);
    text
}

/// The lines of a plan.
fn lines_of(alloc: Global, plan: &Plan) -> Result<Vec<u8>, ()> {
    stage_lines(alloc, plan, 0).map_err(|_| ())
}
