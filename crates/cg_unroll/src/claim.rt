//! Claims, and calls that build one each.

ghost use Rattle.std.specs.Prelude.{◌≡◌, ◌<◌, Err, length, IfErr, IfOk, IsOk};
ghost use Rattle.std.specs.List.{All};
ghost use Rattle.cg_claim.specs.Question.{hold_question, idle_question, stable_question, unseen_question};
ghost use Rattle.cg_unroll.specs.Claims.{IsClaim, IsRefused, IsTargetName, target_of};
ghost use Rattle.cg_unroll.specs.declared.claim.ClaimFault.TheVariants.{NoMemory};
ghost use Rattle.cg_unroll.specs.inner.Faults.{fault_of};

use crate::unroller::Unroller;
use cg_aig::{Aig, AigFault, AigLit};
use cg_claim::leaf::Leaf;
use cg_claim::name::ClaimName;
use cg_claim_reach::unseen::UnseenRegs;
use cg_limit::Limit;
use cg_list::Seq;
use cg_machine::machine::Machine;
use cg_machine::stage::NetLit;
use cg_net::id::RegId;
use std::alloc::{AllocError, Global};

/// A claim: an and-inverter list with a goal, which is 1 at bits of the leaves exactly where these bits violate the claim.
#[derive(Drop)]
pub struct Claim {
    /// The list.
    pub aig: Aig,

    /// The goal.
    pub goal: AigLit,

    /// What the leaves stand for, in the order of their numbers.
    pub leaves: Seq<Leaf>,
}

/// Why a call that builds a claim is refused.
#[derive(Clone, Copy, PartialEq, Eq)]
pub enum ClaimFault {
    /// The claim has this many leaves, more than the width.
    Wide(u32),

    /// Leaves and and-nodes together would be more than 65,536.
    Limit(Limit),

    /// There is no memory.
    NoMemory,
}

impl From<AllocError> for ClaimFault {
    ghost from_gives = { λ _ fault. fault ≡ NoMemory };

    fn from(_refused: AllocError) -> ClaimFault {
        ClaimFault::NoMemory
    }
}

impl From<AigFault> for ClaimFault {
    ghost from_gives = { λ list fault. fault ≡ fault_of list };

    fn from(fault: AigFault) -> ClaimFault {
        match fault {
            AigFault::Limit(which) => ClaimFault::Limit(which),
            AigFault::NoMemory => ClaimFault::NoMemory,
        }
    }
}

/// The claim that the joined enable of a stage can be 0: its goal is 1 at bits of the leaves exactly where it is.
///
/// It is refused by `Wide(n)` exactly where it has n leaves and n is above the width, and else by `Limit(ClaimNodes)`
/// exactly where leaves and and-nodes are more than 65,536.
pub fn idle_claim(
    alloc: Global,
    machine: &Machine,
    enables: &[NetLit],
    width: u32,
) -> Result<Claim, ClaimFault>
    requires { All (λ l. l.0 < length machine.now.circuit.names) enables.now }
    ensures claim { IfOk result (IsClaim machine.now (idle_question enables.now) width) }
    ensures refused { IfErr result (IsRefused machine.now (idle_question enables.now) width) }
{
    let mut unroller = Unroller::new(alloc);
    let built = unroller.idle(machine, enables, width);
    claim_of(built, unroller)
}

/// The claim that a register holds its bit where a literal is 0: its goal is 1 at bits of the leaves exactly where the
/// literal is 0 and the next bit differs from the bit.
///
/// It is refused as [`idle_claim`] is.
pub fn hold_claim(
    alloc: Global,
    machine: &Machine,
    enable: NetLit,
    reg: RegId,
    width: u32,
) -> Result<Claim, ClaimFault>
    requires net { enable.0 < length machine.now.circuit.names }
    requires register { reg < length machine.now.circuit.registers }
    ensures claim { IfOk result (IsClaim machine.now (hold_question enable reg) width) }
    ensures refused { IfErr result (IsRefused machine.now (hold_question enable reg) width) }
{
    let mut unroller = Unroller::new(alloc);
    let built = unroller.hold(machine, enable, reg, width);
    claim_of(built, unroller)
}

/// The claim that a register holds its bit a cycle after the joined enable was 0: its goal is 1 at bits of the leaves
/// exactly where the joined enable is 0 in the first cycle, and in the second the next bit differs from the bit.
///
/// It is refused as [`idle_claim`] is.
pub fn stable_claim(
    alloc: Global,
    machine: &Machine,
    enables: &[NetLit],
    reg: RegId,
    width: u32,
) -> Result<Claim, ClaimFault>
    requires nets { All (λ l. l.0 < length machine.now.circuit.names) enables.now }
    requires register { reg < length machine.now.circuit.registers }
    ensures claim { IfOk result (IsClaim machine.now (stable_question enables.now reg) width) }
    ensures refused { IfErr result (IsRefused machine.now (stable_question enables.now reg) width) }
{
    let mut unroller = Unroller::new(alloc);
    let built = unroller.stable(machine, enables, reg, width);
    claim_of(built, unroller)
}

/// The claim that a target does not show the bits of registers a cycle after the joined enable was 0, where the guards
/// hold their next bits: its goal is 1 at bits of the leaves exactly where the joined enable is 0 in the first cycle, and
/// in the second the target differs when these registers have other bits.
///
/// It is refused as [`idle_claim`] is.
pub fn unseen_claim(
    alloc: Global,
    machine: &Machine,
    enables: &[NetLit],
    guards: &[RegId],
    regs: &[RegId],
    target: ClaimName,
    width: u32,
) -> Result<Claim, ClaimFault>
    requires nets { All (λ l. l.0 < length machine.now.circuit.names) enables.now }
    requires guards { All (λ r. r < length machine.now.circuit.registers) guards.now }
    requires registers { All (λ r. r < length machine.now.circuit.registers) regs.now }
    requires target { IsTargetName machine.now target }
    ensures claim { IfOk result (IsClaim machine.now (unseen_question enables.now guards.now regs.now (target_of machine.now target)) width) }
    ensures refused { IfErr result (IsRefused machine.now (unseen_question enables.now guards.now regs.now (target_of machine.now target)) width) }
{
    let unseen = UnseenRegs::new(alloc, guards, regs)?;
    let mut unroller = Unroller::new(alloc);
    let built = unroller.unseen(machine, enables, &unseen, target, width);
    // By a call, as its parts would else be dropped one by one in the proof; so too below.
    drop(unseen);
    claim_of(built, unroller)
}

/// The claim that was built, taken out of what built it, or why none was.
fn claim_of(built: Result<(), ClaimFault>, unroller: Unroller) -> Result<Claim, ClaimFault>
    ensures claim { IfOk result (λ claim. IsOk built × (claim ≡ unroller)) }
    ensures refused { IfErr result (λ fault. built ≡ Err fault) }
{
    match built {
        Ok(()) => Ok(unroller.into_claim()),
        Err(fault) => {
            drop(unroller);
            Err(fault)
        }
    }
}
