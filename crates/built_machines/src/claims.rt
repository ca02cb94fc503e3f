//! Claims of a machine, each built and decided by itself.

ghost use Rattle.std.specs.Prelude.{◌≡◌, ◌<◌, IsTrue, length, IfOk};
ghost use Rattle.cg_aig.specs.Aig.{aig_ops};
ghost use Rattle.cg_machine.specs.Machine.{IsNet};

use crate::nets::{net_named, register_named};
use cg_claim::name::ClaimName;
use cg_decide::{Decision, decide};
use cg_machine::machine::Machine;
use cg_machine::stage::NetLit;
use cg_net::id::{NetId, RegId};
use cg_text::number::push_number;
use cg_unroll::claim::{Claim, hold_claim, idle_claim, stable_claim, unseen_claim};
use std::alloc::Global;

/// The most leaves of a claim.
const WIDTH: u32 = 32;

/// What is said of the claim that these words name: that a net can be 0, or what is so of a register where it is 0.
pub fn claim_text(alloc: Global, machine: &Machine, words: &[&str]) -> Result<Vec<u8>, ()> {
    let claim = match words {
        ["idle", net] => idle(alloc, machine, net_named(machine, net)?),
        ["hold", net, register] => {
            let net = net_named(machine, net)?;
            hold(alloc, machine, net, register_named(machine, register)?)
        }
        ["stable", net, register] => {
            let net = net_named(machine, net)?;
            stable(alloc, machine, net, register_named(machine, register)?)
        }
        ["unseen", net, register] => {
            let net = net_named(machine, net)?;
            unseen(alloc, machine, net, register_named(machine, register)?)
        }
        _ => Err(()),
    };
    decided_text(alloc, &claim?)
}

/// The claim that a net can be 0.
fn idle(alloc: Global, machine: &Machine, net: NetId) -> Result<Claim, ()>
    requires { IsNet machine.now net }
    ensures { IfOk result (λ claim. IsTrue (aig_ops.is_valid claim.aig claim.goal)) }
{
    idle_claim(alloc, machine, &[plain(net)], WIDTH).map_err(|_| ())
}

/// The claim that a register keeps its bit where a net is 0.
fn hold(alloc: Global, machine: &Machine, net: NetId, register: RegId) -> Result<Claim, ()>
    requires net { IsNet machine.now net }
    requires register { register < length machine.now.circuit.registers }
    ensures { IfOk result (λ claim. IsTrue (aig_ops.is_valid claim.aig claim.goal)) }
{
    hold_claim(alloc, machine, plain(net), register, WIDTH).map_err(|_| ())
}

/// The claim that a register keeps its bit a cycle after a net was 0.
fn stable(alloc: Global, machine: &Machine, net: NetId, register: RegId) -> Result<Claim, ()>
    requires net { IsNet machine.now net }
    requires register { register < length machine.now.circuit.registers }
    ensures { IfOk result (λ claim. IsTrue (aig_ops.is_valid claim.aig claim.goal)) }
{
    stable_claim(alloc, machine, &[plain(net)], register, WIDTH).map_err(|_| ())
}

/// The claim that a net does not show the bit of a register a cycle after it was 0.
fn unseen(alloc: Global, machine: &Machine, net: NetId, register: RegId) -> Result<Claim, ()>
    requires net { IsNet machine.now net }
    requires register { register < length machine.now.circuit.registers }
    ensures { IfOk result (λ claim. IsTrue (aig_ops.is_valid claim.aig claim.goal)) }
{
    let enables = [plain(net)];
    unseen_claim(
        alloc,
        machine,
        &enables,
        &[],
        &[register],
        ClaimName::Enable,
        WIDTH,
    )
    .map_err(|_| ())
}

/// A net as a literal.
fn plain(net: NetId) -> NetLit
    ensures { result.0 ≡ net }
{
    NetLit {
        net,
        inverted: false,
    }
}

/// How many leaves a claim has, and whether bits of them violate it.
fn decided_text(alloc: Global, claim: &Claim) -> Result<Vec<u8>, ()>
    requires { IsTrue (aig_ops.is_valid claim.now.aig claim.now.goal) }
{
    let decision = decide(alloc, &claim.aig, claim.goal).map_err(|_| ())?;
    let violated = match decision {
        Decision::Never(_, _) => false,
        Decision::Sometimes(_) => true,
    };
    let mut text = Vec::new(alloc);
    push_number(&mut text, u64::from(claim.aig.leaves())).map_err(|_| ())?;
    let end: &[u8] = if violated {
        b" violated\n"
    } else {
        b" never violated\n"
    };
    text.extend_from_slice(end).map_err(|_| ())?;
    Ok(text)
}
