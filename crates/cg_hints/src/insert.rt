//! What a hint adds to a machine, and the registers that get it as their enable.

ghost use Rattle.std.specs.Prelude.{Ok, IfErr, ◌≡◌, ◌<◌, ◌∷◌, [], ℕ, true, IsSome, length, map, IfOk, OnErr, OnOk};
ghost use Rattle.std.specs.List.{All, AllByRecursion};
ghost use Rattle.cg_machine.specs.Extends.{Extends, GateFits};
ghost use Rattle.cg_machine.specs.Gates.{HasInputs};
ghost use Rattle.cg_machine.specs.Machine.{IsNet};
ghost use Rattle.cg_machine.specs.Added.{delay_answer, gate_answer};
ghost use Rattle.cg_stage_laws.specs.Joined.{enabled};
ghost use Rattle.cg_hint_laws.specs.Effects.{condition_answer, delayed_by, effect, for_each, hint_answer, joined_from, joined_with, literal_answer, term_answer};
ghost use Rattle.cg_hint_laws.specs.Hints.{Fits};
ghost use Rattle.cg_hint_laws.specs.Answers.{MayFail};
ghost use Rattle.cg_hints.specs.inner.Adding.{AddsAs, AddsNets};
ghost use Rattle.cg_stage_laws.specs.Appends.{Keeps};

use cg_cell::fit::FitKind;
use cg_hint_laws::hint::Hint;
use cg_list::Seq;
use cg_machine::machine::Machine;
use cg_machine::stage::NetLit;
use cg_net::id::{NetId, RegId};
use cg_netlist::fault::AddFault;
use std::alloc::Global;

/// Adds a gate, or finds it again.
fn add_gate(machine: &mut Machine, kind: FitKind, inputs: &[NetId]) -> Result<NetId, AddFault>
    requires { GateFits machine.old kind inputs.now }
    ensures added { AddsAs machine.new (gate_answer machine.old kind inputs.now) result }
    ensures keeps { Keeps machine.old machine.new }
{
    let _netlist = machine.netlist();
    machine.add_gate(kind, inputs)
}

/// Adds the delay register of a net, or finds it again.
fn add_delay(machine: &mut Machine, net: NetId) -> Result<NetId, AddFault>
    requires net { IsNet machine.old net }
    requires clock { IsSome machine.old.circuit.clock }
    ensures added { AddsAs machine.new (delay_answer machine.old net) result }
    ensures keeps { Keeps machine.old machine.new }
{
    let _netlist = machine.netlist();
    machine.add_delay(net)
}

/// Adds the net of a literal: an inverter's where it is inverted.
fn add_literal(machine: &mut Machine, literal: NetLit) -> Result<NetId, AddFault>
    requires { IsNet machine.old literal.0 }
    ensures added { AddsAs machine.new (literal_answer machine.old literal) result }
    ensures keeps { Keeps machine.old machine.new }
{
    let _netlist = machine.netlist();
    if literal.inverted {
        add_gate(machine, FitKind::Inv, &[literal.net])
    } else {
        Ok(literal.net)
    }
}

/// Adds the net of nets joined by gates of a kind, from the left.
fn join(
    machine: &mut Machine,
    kind: FitKind,
    first: NetId,
    rest: &[NetId],
) -> Result<NetId, AddFault>
    requires kind { HasInputs kind 2 }
    requires first { IsNet machine.old first }
    requires rest { AllByRecursion (IsNet machine.old) rest.now }
    ensures added { AddsAs machine.new (joined_with kind (record { machine = machine.old; net = first }) rest.now) result }
    ensures keeps { Keeps machine.old machine.new }
{
    let _netlist = machine.netlist();
    let mut net = first;
    for more in rest {
        net = add_gate(machine, kind, &[net, *more])?;
    }
    Ok(net)
}

/// Adds a net so many cycles later.
fn delay(machine: &mut Machine, net: NetId, cycles: u8) -> Result<NetId, AddFault>
    requires net { IsNet machine.old net }
    requires clock { IsSome machine.old.circuit.clock }
    ensures added { AddsAs machine.new (delayed_by cycles (record { machine = machine.old; net = net })) result }
    ensures keeps { Keeps machine.old machine.new }
{
    let _netlist = machine.netlist();
    let mut last = net;
    for _ in 0..cycles {
        last = add_delay(machine, last)?;
    }
    Ok(last)
}

/// Adds the nets of the literals of a term.
fn add_literals(
    alloc: Global,
    machine: &mut Machine,
    term: &[NetLit],
) -> Result<Seq<NetId>, AddFault>
    requires { AllByRecursion (λ l. IsNet machine.old l.0) term.now }
    ensures added { AddsNets machine.new (for_each literal_answer machine.old term.now) result }
    ensures long { IfOk result (λ nets. length nets ≡ length term.now) }
    ensures keeps { Keeps machine.old machine.new }
{
    let _netlist = machine.netlist();
    let mut nets = Seq::new(alloc);
    for literal in term {
        let net = add_literal(machine, *literal)?;
        nets.push(net)?;
    }
    Ok(nets)
}

/// Adds the net of joined nets.
fn join_all(machine: &mut Machine, kind: FitKind, nets: &[NetId]) -> Result<NetId, AddFault>
    requires kind { HasInputs kind 2 }
    requires some { 0 < length nets.now }
    requires nets { AllByRecursion (IsNet machine.old) nets.now }
    ensures added { AddsAs machine.new (joined_from kind machine.old nets.now) result }
    ensures keeps { Keeps machine.old machine.new }
{
    let first = nets[0];
    join(machine, kind, first, &nets[1..])
}

/// Adds the net of a term: first the nets of its literals, and then these joined.
fn add_term(alloc: Global, machine: &mut Machine, term: &[NetLit]) -> Result<NetId, AddFault>
    requires some { 0 < length term.now }
    requires nets { AllByRecursion (λ l. IsNet machine.old l.0) term.now }
    ensures added { AddsAs machine.new (term_answer machine.old term.now) result }
    ensures keeps { Keeps machine.old machine.new }
{
    let nets = add_literals(alloc, machine, term)?;
    join_all(machine, FitKind::And2, nets.as_slice())
}

/// Adds the nets of the terms of a condition.
fn add_terms(
    alloc: Global,
    machine: &mut Machine,
    terms: &[Seq<NetLit>],
) -> Result<Seq<NetId>, AddFault>
    requires some { All (λ term. 0 < length term) terms.now }
    requires nets { All (λ term. AllByRecursion (λ l. IsNet machine.old l.0) term) terms.now }
    ensures added { AddsNets machine.new (for_each term_answer machine.old terms.now) result }
    ensures long { IfOk result (λ nets. length nets ≡ length terms.now) }
    ensures keeps { Keeps machine.old machine.new }
{
    let _netlist = machine.netlist();
    let mut nets = Seq::new(alloc);
    for k in 0..terms.len() {
        let net = add_term(alloc, machine, terms[k].as_slice())?;
        nets.push(net)?;
    }
    Ok(nets)
}

/// Adds the net of a condition: first the nets of its terms, and then these joined.
fn add_condition(
    alloc: Global,
    machine: &mut Machine,
    terms: &[Seq<NetLit>],
) -> Result<NetId, AddFault>
    requires count { 0 < length terms.now }
    requires some { All (λ term. 0 < length term) terms.now }
    requires nets { All (λ term. AllByRecursion (λ l. IsNet machine.old l.0) term) terms.now }
    ensures added { AddsAs machine.new (condition_answer machine.old terms.now) result }
    ensures keeps { Keeps machine.old machine.new }
{
    let nets = add_terms(alloc, machine, terms)?;
    join_all(machine, FitKind::Or2, nets.as_slice())
}

/// Gives registers this net as their enable.
fn give_enable(machine: &mut Machine, regs: &[RegId], net: NetId)
    requires registers { All (λ r. r < machine.old.own_registers) regs.now }
    requires net { IsNet machine.old net }
    ensures { machine.new ≡ enabled (record { machine = machine.old; net = net }) regs.now }
{
    for reg in regs {
        machine.set_enable(*reg, net);
    }
}

/// Adds what a hint adds, and gives its registers the enable. No register gets it before all is added.
pub(crate) fn insert(alloc: Global, machine: &mut Machine, hint: &Hint) -> Result<(), AddFault>
    requires { Fits machine.old hint.now }
    ensures effect { OnOk result (effect machine.old hint.now ≡ Ok machine.new) }
    ensures fault { IfErr result (MayFail (effect machine.old hint.now)) }
    ensures kept { OnErr result (Keeps machine.old machine.new) }
{
    let _netlist = machine.netlist();
    let condition = add_condition(alloc, machine, hint.terms.as_slice())?;
    let last = delay(machine, condition, hint.after)?;
    give_enable(machine, hint.regs.as_slice(), last);
    Ok(())
}
