//! The hold claims of one register, one literal after another.

ghost use Rattle.std.specs.Prelude.{◌≡◌, ◌<◌, ◌+◌, true, length, IfErr, OnOk};
ghost use Rattle.cg_claim.specs.Question.{held_question, hold_question};
ghost use Rattle.cg_claim.specs.Reach.{inputs_of_register};
ghost use Rattle.cg_limit.specs.declared.TheConstants.{MOST_CLAIM_NODES};
ghost use Rattle.cg_machine.specs.Machine.{walk_of};
ghost use Rattle.cg_net.specs.NetSets.{is_in};
ghost use Rattle.cg_netlist_cone.specs.Cone.{cone_of};
ghost use Rattle.cg_unroll.specs.Claims.{IsRefused};
ghost use Rattle.cg_unroll.specs.Holding.{HasRoom, IsHolding, TellsClaim};
ghost use Rattle.cg_unroll.specs.declared.claim.ClaimFault.TheVariants.{NoMemory};

use crate::build::Builder;
use crate::claim::ClaimFault;
use crate::goal::net_literal;
use crate::unroller::{keeps, leaves_alone};
use cg_aig::{Aig, AigLit};
use cg_claim::leaf::Leaf;
use cg_claim_reach::asked::{Asked, Frame};
use cg_claim_reach::reached::Reacher;
use cg_limit::MOST_CLAIM_NODES;
use cg_list::Seq;
use cg_machine::machine::Machine;
use cg_machine::stage::NetLit;
use cg_net::id::RegId;
use std::alloc::Global;
use std::marker::Model;

/// What builds the hold claims of one register, for one literal of the cone of its inputs after another.
///
/// Whatever the literal, they reach the same, and their lists are the same but for the `and` that is the goal. So what they have in
/// common is built once, and a claim costs its `and`. Those of the claims before it stay in the list, behind what they have in
/// common, and change no bit of it.
///
/// Clauses see the claim that was built last, and what all have in common.
#[derive(Drop)]
pub struct HoldClaims {
    reacher: Reacher,
    builder: Builder,
    leaves: Seq<Leaf>,

    /// It is 1 where the next bit of the register differs from its bit.
    differs: AigLit,

    /// How many and-nodes there are without a goal.
    ands: u32,
}

impl Model for HoldClaims {
    ghost use Rattle.cg_unroll.specs.Holding.{Holding};

    ghost Value = { Holding };

    ghost view = { λ h. record {
      claim = record { aig = h.builder.aig; goal = h.builder.goal; leaves = h.leaves };
      nets = h.builder.tables.before.nets;
      differs = h.differs;
      ands = h.ands;
    } };
}

impl HoldClaims {
    /// Of no register yet; takes no memory.
    pub fn new(alloc: Global) -> HoldClaims {
        let builder = Builder::new(alloc);
        let differs = builder.goal;
        HoldClaims {
            reacher: Reacher::new(alloc),
            builder,
            leaves: Seq::new(alloc),
            differs,
            ands: 0,
        }
    }

    /// The list of the claim that was built last.
    pub fn aig(&self) -> &Aig
        ensures { result.now ≡ self.now.claim.aig }
    {
        &self.builder.aig
    }

    /// The goal of that claim.
    pub fn goal(&self) -> AigLit
        ensures { result ≡ self.now.claim.goal }
    {
        self.builder.goal
    }

    /// What the leaves of the claims stand for, in the order of their numbers.
    pub fn leaves(&self) -> &[Leaf]
        ensures { result.now ≡ self.now.claim.leaves }
    {
        self.leaves.as_slice()
    }

    /// Whether there is room for the goal of any claim behind what the claims have in common.
    pub fn has_room(&self) -> bool
        ensures { result ≡ true → self.now.claim.aig.number + self.now.ands < MOST_CLAIM_NODES }
    {
        let leaves = self.builder.aig.leaves();
        self.ands < MOST_CLAIM_NODES - leaves
    }

    /// Builds what the hold claims of a register have in common. Where it is refused, so is each of these claims.
    pub fn start(&mut self, machine: &Machine, reg: RegId, width: u32) -> Result<(), ClaimFault>
        requires { reg < length machine.now.circuit.registers }
        ensures holding { OnOk result (IsHolding machine.now reg width self.new) }
        ensures alone { OnOk result (length self.new.claim.aig.pairs ≡ self.new.ands) }
        ensures refused { IfErr result (IsRefused machine.now (held_question reg) width) }
    {
        let asked = Asked {
            enables: &[],
            follows: &[],
            changes: &[],
            sides: Some(keeps(Frame::Before, reg)),
        };
        let reached = self.reacher.reach(machine, &asked)?;
        let built = self.builder.build_narrow(machine, &asked, &reached, width);
        self.leaves = leaves_alone(reached);
        self.differs = self.builder.goal;
        self.ands = self.builder.aig.ands();
        built
    }

    /// Builds the hold claim of a literal of the cone of the register's inputs. It is refused by `Limit(ClaimNodes)` exactly where
    /// leaves and and-nodes of this claim alone are more than 65,536.
    pub fn claim(
        &mut self,
        machine: &Machine,
        literal: NetLit,
        reg: RegId,
        width: u32,
    ) -> Result<(), ClaimFault>
        requires register { reg < length machine.now.circuit.registers }
        requires holding { IsHolding machine.now reg width self.old }
        requires among { is_in (cone_of (walk_of machine.now) (inputs_of_register machine.now reg)) literal.0 ≡ true }
        requires net { literal.0 < length machine.now.circuit.names }
        ensures claim { OnOk result (TellsClaim machine.now (hold_question literal reg) width self.new.claim) }
        ensures holding { OnOk result (IsHolding machine.now reg width self.new) }
        ensures refused { IfErr result (IsRefused machine.now (hold_question literal reg) width) }
    {
        let _netlist = machine.netlist();
        self.make_room(machine, reg, width)?;
        let enable = net_literal(literal, &self.builder.tables.before.nets);
        self.builder.goal = self.builder.aig.and(enable.not(), self.differs)?;
        let _leaves = self.builder.aig.leaves();
        Ok(())
    }

    /// Begins again where the goals of earlier claims left no room for one more.
    fn make_room(&mut self, machine: &Machine, reg: RegId, width: u32) -> Result<(), ClaimFault>
        requires register { reg < length machine.now.circuit.registers }
        requires holding { IsHolding machine.now reg width self.old }
        ensures holding { OnOk result (IsHolding machine.now reg width self.new) }
        ensures room { OnOk result (HasRoom self.new) }
        ensures failed { IfErr result (λ fault. fault ≡ NoMemory) }
    {
        let ands = self.builder.aig.ands();
        let most = MOST_CLAIM_NODES - self.builder.aig.leaves();
        if ands == self.ands || ands < most {
            return Ok(());
        }
        self.start(machine, reg, width)
    }
}
