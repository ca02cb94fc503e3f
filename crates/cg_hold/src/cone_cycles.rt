//! A few cycles of a machine in which only the cone of one register's inputs is looked at.
//!
//! They cost as much as the cone, so that there may be many of them: rounds of random bits, and cycles that are near to one in
//! which a literal was seen not to hold the register. They settle most of the literals that the cycles of the whole machine leave.

ghost use Rattle.std.specs.Prelude.{◌≡◌, ◌<◌, ◌≤◌, ◌∷◌, [], ℕ, Some, true, false, length, slice_get, OnOk};
ghost use Rattle.cg_claim.specs.LeafBits.{is_never};
ghost use Rattle.cg_claim.specs.Question.{hold_question, idle_question};
ghost use Rattle.cg_hold.specs.inner.Choosing.{IsLiteralOf};
ghost use Rattle.cg_hold.specs.inner.Laying.{Lays, StartsAt};
ghost use Rattle.cg_hold.specs.inner.Looking.{AreConeCycles, IsLook};
ghost use Rattle.cg_hold.specs.inner.Fitting.{FitWords};
ghost use Rattle.cg_machine.specs.Machine.{MachineData};
ghost use Rattle.cg_net.specs.NetSets.{is_in};
ghost use Rattle.cg_netlist.specs.Moment.{values_at};
ghost use Rattle.cg_netlist.specs.Netlist.{widest_of};

use crate::moves::next_word;
use crate::nets::{lay_cell, start_word};
use crate::search::Look;
use crate::words::zeros;
use cg_claim::leaf::{Leaf, LeafSource};
use cg_machine::machine::Machine;
use cg_machine::stage::NetLit;
use cg_net::id::{NetId, RegId};
use cg_word::words::has_one;
use cg_xorshift::Random;
use std::alloc::{AllocError, Global};

/// 64 cycles of one register, each in a lane of the words, in buffers that are kept.
#[derive(Drop)]
pub(crate) struct ConeCycles {
    random: Random,

    /// The words of the nets; those outside the cone do not count.
    pub nets: Vec<u64>,

    /// The words of the registers; those that are not at the edge of the cone do not count.
    state: Vec<u64>,

    scratch: Vec<u64>,

    /// The cycles in which the register takes another bit.
    pub moves: u64,
}

impl ConeCycles {
    /// With empty buffers.
    pub fn new(alloc: Global) -> ConeCycles {
        ConeCycles {
            random: Random::new(),
            nets: Vec::new(alloc),
            state: Vec::new(alloc),
            scratch: Vec::new(alloc),
            moves: 0,
        }
    }

    /// Cycles with random bits.
    pub fn draw(&mut self, look: &Look<'_>) -> Result<(), AllocError>
        requires { IsLook look.now.search.now.machine.now look.now.reg look.now.nets.now look.now.cone.now look.now.literals.now }
        ensures { OnOk result (AreConeCycles look.now.search.now.machine.now look.now.reg self.new.nets.items self.new.moves) }
    {
        self.fit(look.search.machine)?;
        self.draw_edge(look);
        self.lay(look);
        Ok(())
    }

    /// A cycle with these bits of leaves, and cycles with a few of them inverted.
    pub fn take(
        &mut self,
        look: &Look<'_>,
        leaves: &[Leaf],
        bits: &[bool],
    ) -> Result<(), AllocError>
        requires { IsLook look.now.search.now.machine.now look.now.reg look.now.nets.now look.now.cone.now look.now.literals.now }
        ensures { OnOk result (AreConeCycles look.now.search.now.machine.now look.now.reg self.new.nets.items self.new.moves) }
    {
        self.fit(look.search.machine)?;
        self.take_edge(leaves, bits);
        self.lay(look);
        Ok(())
    }

    /// Whether some cycle shows that the register does not hold its bit where a literal is 0.
    pub fn show_move(&self, look: &Look<'_>, literal: NetLit) -> bool
        requires look { IsLook look.now.search.now.machine.now look.now.reg look.now.nets.now look.now.cone.now look.now.literals.now }
        requires cycles { AreConeCycles look.now.search.now.machine.now look.now.reg self.now.nets.items self.now.moves }
        requires literal { IsLiteralOf look.now.search.now.machine.now look.now.reg literal }
        ensures { result ≡ true → is_never look.now.search.now.machine.now (hold_question literal look.now.reg) ≡ false }
    {
        let _netlist = look.search.machine.netlist();
        has_one(zeros(&self.nets, literal) & self.moves)
    }

    /// Whether some cycle shows that a literal can be 0.
    pub fn show_idle(&self, look: &Look<'_>, literal: NetLit) -> bool
        requires look { IsLook look.now.search.now.machine.now look.now.reg look.now.nets.now look.now.cone.now look.now.literals.now }
        requires cycles { AreConeCycles look.now.search.now.machine.now look.now.reg self.now.nets.items self.now.moves }
        requires literal { IsLiteralOf look.now.search.now.machine.now look.now.reg literal }
        ensures { result ≡ true → is_never look.now.search.now.machine.now (idle_question (literal ∷ [])) ≡ false }
    {
        let _netlist = look.search.machine.netlist();
        has_one(zeros(&self.nets, literal))
    }

    /// Makes a word for each net and register of a machine.
    fn fit(&mut self, machine: &Machine) -> Result<(), AllocError>
        ensures { OnOk result (FitWords machine.now self.new.nets.items self.new.state.items self.new.scratch.items) }
    {
        self.nets.resize(machine.nets() as usize, 0)?;
        self.state.resize(machine.registers() as usize, 0)?;
        self.scratch.resize(machine.widest() as usize, 0)?;
        Ok(())
    }

    /// Puts random words at the edge of the cone.
    fn draw_edge(&mut self, look: &Look<'_>)
        ensures { (m : MachineData) → FitWords m self.old.nets.items self.old.state.items self.old.scratch.items
            → FitWords m self.new.nets.items self.new.state.items self.new.scratch.items }
    {
        draw_inputs(
            look.cone.inputs.as_slice(),
            &mut self.random,
            &mut self.nets,
        );
        draw_registers(
            look.cone.registers.as_slice(),
            &mut self.random,
            &mut self.state,
        );
        let word = self.random.biased();
        put(&mut self.state, look.reg.number(), word);
    }

    /// Puts words at leaves that have these bits in the first lane, and in each other one some of them inverted.
    fn take_edge(&mut self, leaves: &[Leaf], bits: &[bool])
        ensures { (m : MachineData) → FitWords m self.old.nets.items self.old.state.items self.old.scratch.items
            → FitWords m self.new.nets.items self.new.state.items self.new.scratch.items }
    {
        for place in 0..leaves.len() {
            let bit = place < bits.len() && bits[place];
            let word = self.random.near(bit);
            self.put_leaf(leaves[place].source, word);
        }
    }

    /// Puts a word at a leaf.
    fn put_leaf(&mut self, source: LeafSource, word: u64)
        ensures { (m : MachineData) → FitWords m self.old.nets.items self.old.state.items self.old.scratch.items
            → FitWords m self.new.nets.items self.new.state.items self.new.scratch.items }
    {
        match source {
            LeafSource::Input(net) => put(&mut self.nets, net.number(), word),
            LeafSource::Register(reg) => put(&mut self.state, reg.number(), word),
        }
    }

    /// Lays the cone from what stands at its edge.
    fn lay(&mut self, look: &Look<'_>)
        requires look { IsLook look.now.search.now.machine.now look.now.reg look.now.nets.now look.now.cone.now look.now.literals.now }
        requires fit { FitWords look.now.search.now.machine.now self.old.nets.items self.old.state.items self.old.scratch.items }
        ensures { AreConeCycles look.now.search.now.machine.now look.now.reg self.new.nets.items self.new.moves }
    {
        self.moves = lay(look, &self.state, &mut self.nets, &mut self.scratch);
    }
}

/// Lays the cone from the words of registers, and of the data inputs at its edge. The cycles in which the register takes another
/// bit.
fn lay(look: &Look<'_>, state: &[u64], words: &mut [u64], scratch: &mut [u64]) -> u64
    requires look { IsLook look.now.search.now.machine.now look.now.reg look.now.nets.now look.now.cone.now look.now.literals.now }
    requires fit { FitWords look.now.search.now.machine.now words.old state.now scratch.old }
    ensures { AreConeCycles look.now.search.now.machine.now look.now.reg words.new result }
{
    let machine = look.search.machine;
    let _netlist = machine.netlist();
    start_cone(look, state, words);
    lay_cone(look, words, scratch);
    let own = state[look.reg.number() as usize];
    next_word(machine, look.reg, state, words) ^ own
}

/// Puts the words of the cone's nets before cells are laid: those of data inputs stay.
fn start_cone(look: &Look<'_>, state: &[u64], words: &mut [u64])
    requires look { IsLook look.now.search.now.machine.now look.now.reg look.now.nets.now look.now.cone.now look.now.literals.now }
    requires state { length state.now ≡ length look.now.search.now.machine.now.circuit.registers }
    requires words { length words.old ≡ length look.now.search.now.machine.now.circuit.names }
    ensures { (y word : ℕ) → is_in look.now.nets.now y ≡ true → slice_get words.new y ≡ Some word
        → StartsAt look.now.search.now.machine.now state.now y word }
{
    let machine = look.search.machine;
    for place in 0..look.nets.len() {
        let number = look.nets[place];
        let word = start_word(machine, state, NetId::new(number), words[number as usize]);
        words[number as usize] = word;
    }
}

/// Lays the cells of a cone, one after another.
fn lay_cone(look: &Look<'_>, words: &mut [u64], scratch: &mut [u64])
    requires look { IsLook look.now.search.now.machine.now look.now.reg look.now.nets.now look.now.cone.now look.now.literals.now }
    requires words { length words.old ≡ length look.now.search.now.machine.now.circuit.names }
    requires scratch { widest_of look.now.search.now.machine.now.circuit.cells ≤ length scratch.old }
    ensures { Lays (values_at look.now.search.now.machine.now.circuit.cells look.now.cone.now.cells) words.old words.new }
{
    let machine = look.search.machine;
    for id in look.cone.cells.as_slice() {
        lay_cell(machine, *id, words, scratch);
    }
}

/// Puts random words at data inputs.
fn draw_inputs(inputs: &[NetId], random: &mut Random, words: &mut Vec<u64>)
    ensures { length words.new.items ≡ length words.old.items }
{
    for net in inputs {
        let word = random.biased();
        put(words, net.number(), word);
    }
}

/// Puts random words at registers.
fn draw_registers(registers: &[RegId], random: &mut Random, words: &mut Vec<u64>)
    ensures { length words.new.items ≡ length words.old.items }
{
    for reg in registers {
        let word = random.biased();
        put(words, reg.number(), word);
    }
}

/// Puts a word at a place, if it is there.
fn put(words: &mut Vec<u64>, place: u32, word: u64)
    ensures { length words.new.items ≡ length words.old.items }
{
    if (place as usize) < words.len() {
        words[place as usize] = word;
    }
}
