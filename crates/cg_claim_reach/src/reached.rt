//! What a claim reaches in each copy of the machine, and its leaves.

ghost use Rattle.std.specs.Prelude.{◌≡◌, ◌↔◌, [], map, IfOk, IsTrue};
ghost use Rattle.cg_netlist_cone.specs.Cone.{cone_of};
ghost use Rattle.cg_machine.specs.Machine.{MachineData, walk_of};
ghost use Rattle.cg_claim.specs.Question.{Question};
ghost use Rattle.cg_claim.specs.Leaves.{leaves_of, shown_leaf};
ghost use Rattle.cg_claim.specs.Reach.{before_nets, enable_nets, sides_nets};
ghost use Rattle.cg_claim_reach.specs.Asking.{AsksThere, copy_of, question_of};
ghost use Rattle.cg_claim_reach.specs.inner.Early.{IsEarly};
ghost use Rattle.cg_claim_reach.specs.inner.Found.{AreSetsOf, IsLater};
ghost use Rattle.cg_claim_reach.specs.Reached.{IsConeOf, IsReached};

use crate::asked::{Asked, Frame};
use crate::leaves::leaves;
use crate::named::Named;
use crate::roots::{is_same, push_enables, push_origins, push_sides};
use crate::sources::{after_states, changed_states};
use crate::unseen::UnseenRegs;
use cg_claim::leaf::Leaf;
use cg_list::Seq;
use cg_machine::cone::ConeFinder;
use cg_machine::machine::Machine;
use cg_net::id::RegId;
use cg_netlist_cone::cone::Cone;
use std::alloc::{AllocError, Global};

/// What a claim reaches.
#[derive(Drop)]
pub struct Reached {
    /// The cone of the first copy.
    pub before: Cone,

    /// The cone of the copy after it.
    pub after: Cone,

    /// The cone of the last copy.
    pub changed: Cone,

    /// The registers whose states after the first cycle are reached, in register order.
    pub states: Seq<RegId>,

    /// The leaves, in the order of their numbers.
    pub leaves: Seq<Leaf>,
}

/// What a claim reaches in the copies after the first.
#[derive(Drop)]
pub(crate) struct Later {
    /// The cone of the second copy.
    pub(crate) after: Cone,

    /// The cone of the last copy.
    pub(crate) changed: Cone,

    /// The registers whose states are reached in the second copy, in register order.
    pub(crate) states: Seq<RegId>,

    /// And those whose states are reached in the last copy.
    pub(crate) moved: Seq<RegId>,
}

/// What finds what claims reach, in buffers that are kept from claim to claim.
#[derive(Drop)]
pub struct Reacher {
    alloc: Global,
    cones: ConeFinder,
}

impl Reacher {
    /// Buffers for no machine yet; takes no memory.
    pub fn new(alloc: Global) -> Reacher {
        Reacher {
            alloc,
            cones: ConeFinder::new(alloc),
        }
    }

    /// What a claim reaches that says something of few registers.
    pub fn reach(&mut self, machine: &Machine, asked: &Asked<'_>) -> Result<Reached, AllocError>
        requires { AsksThere machine.now (question_of asked.now) }
        ensures { IfOk result (IsReached machine.now (question_of asked.now)) }
    {
        let named = Named::new(self.alloc, asked.follows, asked.changes)?;
        self.reach_named(machine, asked, &named)
    }

    /// What a claim reaches that says something of these registers, at the cost of that, however many they are.
    pub fn reach_with(
        &mut self,
        machine: &Machine,
        asked: &Asked<'_>,
        unseen: &UnseenRegs<'_>,
    ) -> Result<Reached, AllocError>
        requires asked { AsksThere machine.now (question_of asked.now) }
        requires follows { asked.now.follows.now ≡ unseen.now.guards }
        requires changes { asked.now.changes.now ≡ unseen.now.regs }
        ensures { IfOk result (IsReached machine.now (question_of asked.now)) }
    {
        self.reach_named(machine, asked, &unseen.named)
    }

    /// What a claim reaches, at the cost of that: the cones of the later copies first, then the states after the first
    /// cycle that they ask for, and then the first cone, which these ask for.
    fn reach_named(
        &mut self,
        machine: &Machine,
        asked: &Asked<'_>,
        named: &Named,
    ) -> Result<Reached, AllocError>
        requires asked { AsksThere machine.now (question_of asked.now) }
        requires named { AreSetsOf asked.now.follows.now asked.now.changes.now named.now }
        ensures { IfOk result (IsReached machine.now (question_of asked.now)) }
    {
        let later = self.later_copies(machine, asked, named)?;
        let (before, leaves) = self.first_copy(machine, asked, named, &later)?;
        Ok(Reached {
            before,
            after: later.after,
            changed: later.changed,
            states: later.states,
            leaves,
        })
    }

    /// What a claim reaches in the copies after the first: nothing where it says something of the first cycle alone.
    fn later_copies(
        &mut self,
        machine: &Machine,
        asked: &Asked<'_>,
        named: &Named,
    ) -> Result<Later, AllocError>
        requires asked { AsksThere machine.now (question_of asked.now) }
        requires named { AreSetsOf asked.now.follows.now asked.now.changes.now named.now }
        ensures { IfOk result (IsLater machine.now (question_of asked.now)) }
    {
        if is_early(asked) {
            return Ok(nothing_later(self.alloc));
        }
        let changed = self.later_cone(machine, asked, Frame::Changed)?;
        let after = self.later_cone(machine, asked, Frame::After)?;
        let moved = changed_states(self.alloc, machine, asked, &changed)?;
        let states = after_states(self.alloc, machine, asked, named, &after, &moved)?;
        Ok(Later {
            after,
            changed,
            states,
            moved,
        })
    }

    /// The cone of what the sides ask for in a copy.
    fn later_cone(
        &mut self,
        machine: &Machine,
        asked: &Asked<'_>,
        frame: Frame,
    ) -> Result<Cone, AllocError>
        requires { AsksThere machine.now (question_of asked.now) }
        ensures { IfOk result (let q = question_of asked.now in IsConeOf machine.now
            (cone_of (walk_of machine.now) (sides_nets machine.now (enable_nets q) (copy_of frame) q.sides))) }
    {
        let _netlist = machine.netlist();
        let mut roots = Vec::new(self.alloc);
        push_sides(machine, asked, frame, &mut roots)?;
        let cone = self.cones.find(machine, &roots)?;
        Ok(cone)
    }

    /// The cone of the first copy, and the leaves of all copies.
    fn first_copy(
        &mut self,
        machine: &Machine,
        asked: &Asked<'_>,
        named: &Named,
        later: &Later,
    ) -> Result<(Cone, Seq<Leaf>), AllocError>
        requires asked { AsksThere machine.now (question_of asked.now) }
        requires named { AreSetsOf asked.now.follows.now asked.now.changes.now named.now }
        requires later { IsLater machine.now (question_of asked.now) later.now }
        ensures before { IfOk result (λ first. IsConeOf machine.now (before_nets machine.now (question_of asked.now)) first.0) }
        ensures leaves { IfOk result (λ first. first.1 ≡ map shown_leaf (leaves_of machine.now (question_of asked.now))) }
    {
        let before = self.first_cone(machine, asked, named, later)?;
        let leaves = leaves(self.alloc, machine, asked, named, &before, later)?;
        Ok((before, leaves))
    }

    /// The cone of what is asked for in the first cycle: the joined enable, what the sides ask for, and what the states
    /// after it ask for.
    fn first_cone(
        &mut self,
        machine: &Machine,
        asked: &Asked<'_>,
        named: &Named,
        later: &Later,
    ) -> Result<Cone, AllocError>
        requires asked { AsksThere machine.now (question_of asked.now) }
        requires named { AreSetsOf asked.now.follows.now asked.now.changes.now named.now }
        requires later { IsLater machine.now (question_of asked.now) later.now }
        ensures { IfOk result (IsConeOf machine.now (before_nets machine.now (question_of asked.now))) }
    {
        let _netlist = machine.netlist();
        let states = later.states.as_slice();
        let mut roots = Vec::new(self.alloc);
        push_enables(asked.enables, &mut roots)?;
        push_sides(machine, asked, Frame::Before, &mut roots)?;
        push_origins(machine, &named.follows, states, &mut roots)?;
        let cone = self.cones.find(machine, &roots)?;
        Ok(cone)
    }
}

/// Whether both sides of a claim, where it has some, are of the first cycle.
fn is_early(asked: &Asked<'_>) -> bool
    ensures { IsTrue result ↔ IsEarly (question_of asked.now).sides }
{
    match &asked.sides {
        None => true,
        Some((one, other)) => {
            is_same(one.frame, Frame::Before) && is_same(other.frame, Frame::Before)
        }
    }
}

/// What a claim reaches later that says something of the first cycle alone; takes no memory.
fn nothing_later(alloc: Global) -> Later
    ensures { (m : MachineData) (q : Question) → IsEarly q.sides → IsLater m q result }
{
    Later {
        after: no_cone(alloc),
        changed: no_cone(alloc),
        states: Seq::new(alloc),
        moved: Seq::new(alloc),
    }
}

/// The cone of no nets; takes no memory.
fn no_cone(alloc: Global) -> Cone
    ensures { result ≡ record { cells = []; inputs = []; registers = [] } }
{
    Cone {
        cells: Seq::new(alloc),
        inputs: Seq::new(alloc),
        registers: Seq::new(alloc),
    }
}
