//! What a stage adds to a machine, and the registers that get it as their enable.

ghost use Rattle.std.specs.Prelude.{◌≡◌, ◌<◌, ◌∷◌, [], ℕ, Some, true, IsSome, None, length, map, IfErr, IfOk, OnErr, OnOk};
ghost use Rattle.std.specs.List.{All};
ghost use Rattle.cg_cell.specs.declared.fit.FitKind.TheVariants.{And2};
ghost use Rattle.cg_machine.specs.Added.{add_delay, add_gate, delay_limit, gate_limit};
ghost use Rattle.cg_machine.specs.Extends.{GateFits};
ghost use Rattle.cg_machine.specs.Machine.{IsNet};
ghost use Rattle.cg_net.specs.NetSets.{is_in};
ghost use Rattle.cg_stage_laws.specs.Appends.{Keeps};
ghost use Rattle.cg_plan.specs.inner.Inserting.{AddsNet, MayPass, delayed_limit, literal_limit};
ghost use Rattle.cg_claim_reach.specs.Fanout.{Knows};
ghost use Rattle.cg_stage_laws.specs.Effects.{delayed, effect, limit_by, literal_net, net_by, with_own};
ghost use Rattle.cg_stage_laws.specs.Joined.{enabled, join, join_all, join_all_limit, join_limit};
ghost use Rattle.cg_stage_laws.specs.Stages.{Fits, enable_nets};

use crate::claims::first_literal;
use cg_cell::fit::FitKind;
use cg_claim_reach::fanout::Fanout;
use cg_machine::machine::Machine;
use cg_machine::stage::{NetLit, Stage, StageKind};
use cg_net::id::{NetId, RegId};
use cg_netlist::fault::AddFault;

/// Adds what a stage adds, and gives its registers the enable, which what reads the nets is told of before. No register gets
/// it before all is added.
pub(crate) fn insert(
    machine: &mut Machine,
    fanout: &mut Fanout,
    stage: &Stage,
) -> Result<(), AddFault>
    requires fits { Fits machine.old stage.now }
    requires knows { Knows machine.old fanout.old }
    ensures effect { OnOk result (machine.new ≡ effect machine.old stage.now) }
    ensures room { OnOk result (limit_by stage.now.kind machine.old stage.now ≡ None) }
    ensures fault { IfErr result (MayPass (limit_by stage.now.kind machine.old stage.now)) }
    ensures kept { OnErr result (Keeps machine.old machine.new) }
    ensures knows { OnOk result (Knows machine.new fanout.new) }
{
    let net = add_net(machine, stage)?;
    let regs = stage.regs.as_slice();
    fanout.note_enable(net, regs)?;
    give_enable(machine, regs, net);
    Ok(())
}

/// Gives registers this net as their enable.
fn give_enable(machine: &mut Machine, regs: &[RegId], net: NetId)
    requires registers { All (λ r. r < machine.old.own_registers) regs.now }
    requires net { IsNet machine.old net }
    ensures { machine.new ≡ enabled (record { machine = machine.old; net = net }) regs.now }
{
    for reg in regs {
        machine.set_enable(*reg, net);
    }
}

/// Adds the net that the registers of a stage get.
fn add_net(machine: &mut Machine, stage: &Stage) -> Result<NetId, AddFault>
    requires { Fits machine.old stage.now }
    ensures added { IfOk result (AddsNet (limit_by stage.now.kind machine.old stage.now) (net_by stage.now.kind machine.old stage.now) machine.new) }
    ensures fault { IfErr result (MayPass (limit_by stage.now.kind machine.old stage.now)) }
    ensures keeps { Keeps machine.old machine.new }
{
    let _netlist = machine.netlist();
    let enables = stage.enable.as_slice();
    match stage.kind {
        StageKind::Hold => add_literal(machine, first_literal(enables)),
        StageKind::Stable => add_delayed(machine, enables, stage.own),
        StageKind::Unseen => join_all(machine, enables),
    }
}

/// Adds the net of a literal: an inverter's where it is inverted.
fn add_literal(machine: &mut Machine, literal: NetLit) -> Result<NetId, AddFault>
    requires { IsNet machine.old literal.0 }
    ensures added { IfOk result (AddsNet (literal_limit machine.old literal) (literal_net machine.old literal) machine.new) }
    ensures fault { IfErr result (MayPass (literal_limit machine.old literal)) }
    ensures keeps { Keeps machine.old machine.new }
{
    let _netlist = machine.netlist();
    if literal.inverted {
        add_gate(machine, FitKind::Inv, &[literal.net])
    } else {
        Ok(literal.net)
    }
}

/// Adds the nets of plain literals joined, a cycle later, and joined with the enable that registers have before.
fn add_delayed(
    machine: &mut Machine,
    enables: &[NetLit],
    own: Option<NetId>,
) -> Result<NetId, AddFault>
    requires some { 0 < length enables.now }
    requires nets { (net : ℕ) → is_in (map (λ l. l.0) enables.now) net ≡ true → IsNet machine.old net }
    requires own { (net : ℕ) → own ≡ Some net → IsNet machine.old net }
    requires clock { IsSome machine.old.circuit.clock }
    ensures added { IfOk result (AddsNet (delayed_limit machine.old (map (λ l. l.0) enables.now) own)
        (with_own (delayed (join_all machine.old (map (λ l. l.0) enables.now))) own) machine.new) }
    ensures fault { IfErr result (MayPass (delayed_limit machine.old (map (λ l. l.0) enables.now) own)) }
    ensures keeps { Keeps machine.old machine.new }
{
    let joined = join_all(machine, enables)?;
    let delayed = add_delay(machine, joined)?;
    match own {
        None => Ok(delayed),
        Some(own) => add_gate(machine, FitKind::And2, &[own, delayed]),
    }
}

/// Adds the nets of plain literals joined.
fn join_all(machine: &mut Machine, enables: &[NetLit]) -> Result<NetId, AddFault>
    requires some { 0 < length enables.now }
    requires nets { (net : ℕ) → is_in (map (λ l. l.0) enables.now) net ≡ true → IsNet machine.old net }
    ensures added { IfOk result
        (AddsNet (join_all_limit machine.old (map (λ l. l.0) enables.now)) (join_all machine.old (map (λ l. l.0) enables.now)) machine.new) }
    ensures fault { IfErr result (MayPass (join_all_limit machine.old (map (λ l. l.0) enables.now))) }
    ensures keeps { Keeps machine.old machine.new }
{
    let first = enables[0];
    join(machine, first.net, &enables[1..])
}

/// Adds a net joined with those of more plain literals, from the left.
fn join(machine: &mut Machine, first: NetId, rest: &[NetLit]) -> Result<NetId, AddFault>
    requires first { IsNet machine.old first }
    requires nets { (net : ℕ) → is_in (map (λ l. l.0) rest.now) net ≡ true → IsNet machine.old net }
    ensures added { IfOk result (AddsNet (join_limit (record { machine = machine.old; net = first }) (map (λ l. l.0) rest.now))
        (join (record { machine = machine.old; net = first }) (map (λ l. l.0) rest.now)) machine.new) }
    ensures fault { IfErr result (MayPass (join_limit (record { machine = machine.old; net = first }) (map (λ l. l.0) rest.now))) }
    ensures keeps { Keeps machine.old machine.new }
{
    let _netlist = machine.netlist();
    let mut net = first;
    for literal in rest {
        net = add_gate(machine, FitKind::Or2, &[net, literal.net])?;
    }
    Ok(net)
}

/// Adds a gate, or finds it again.
fn add_gate(machine: &mut Machine, kind: FitKind, inputs: &[NetId]) -> Result<NetId, AddFault>
    requires { GateFits machine.old kind inputs.now }
    ensures added { IfOk result (AddsNet (gate_limit machine.old kind inputs.now) (add_gate machine.old kind inputs.now) machine.new) }
    ensures fault { IfErr result (MayPass (gate_limit machine.old kind inputs.now)) }
    ensures keeps { Keeps machine.old machine.new }
{
    let _netlist = machine.netlist();
    machine.add_gate(kind, inputs)
}

/// Adds the delay register of a net, or finds it again.
fn add_delay(machine: &mut Machine, net: NetId) -> Result<NetId, AddFault>
    requires net { IsNet machine.old net }
    requires clock { IsSome machine.old.circuit.clock }
    ensures added { IfOk result (AddsNet (delay_limit machine.old net) (add_delay machine.old net) machine.new) }
    ensures fault { IfErr result (MayPass (delay_limit machine.old net)) }
    ensures keeps { Keeps machine.old machine.new }
{
    let _netlist = machine.netlist();
    machine.add_delay(net)
}
