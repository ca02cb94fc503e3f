//! A few cycles of a machine with random bits, which settle most literals without a claim.
//!
//! A literal that is 0 in a cycle in which a register takes another bit does not hold that register, and a literal that is 0
//! in some cycle can be 0. What no cycle shows is left to the claims.

ghost use Rattle.std.specs.Prelude.{◌≡◌, ◌<◌, ◌∷◌, [], true, false, not, IfOk, length};
ghost use Rattle.cg_claim.specs.LeafBits.{is_never};
ghost use Rattle.cg_claim.specs.Question.{hold_question, idle_question};
ghost use Rattle.cg_hold.specs.inner.Cycles.{AreCycles};
ghost use Rattle.cg_word.specs.Words.{IsWord, lane};
ghost use Rattle.cg_machine.specs.Claims.{literal_bit};
ghost use Rattle.cg_netlist.specs.Moment.{bit};

use crate::moves::move_words;
use crate::nets::{lay_cells, start_words};
use crate::words::zeros;
use cg_list::Seq;
use cg_machine::machine::Machine;
use cg_machine::stage::NetLit;
use cg_net::id::RegId;
use cg_word::words::has_one;
use cg_xorshift::Random;
use std::alloc::{AllocError, Global};

/// 64 cycles of a machine, each in a lane of these words.
#[derive(Drop)]
pub(crate) struct CycleWords {
    /// The bits of the nets.
    nets: Seq<u64>,

    /// Whether the registers take another bit.
    moves: Seq<u64>,
}

/// Cycles of one machine.
#[derive(Drop)]
pub(crate) struct Cycles {
    cycles: CycleWords,
}

impl Cycles {
    /// Cycles of a machine, from the same random bits each time.
    pub fn of(alloc: Global, machine: &Machine) -> Result<Cycles, AllocError>
        ensures { IfOk result (λ made. AreCycles machine.now made.cycles) }
    {
        let _netlist = machine.netlist();
        let mut random = Random::new();
        let state = random.draw(alloc, machine.registers() as usize)?;
        let mut nets = start_words(alloc, machine, &state, &mut random)?;
        let mut scratch = vec![in alloc; 0; machine.widest() as usize]?;
        lay_cells(machine, &mut nets, &mut scratch);
        let moves = move_words(alloc, machine, &state, &nets)?;
        Ok(Cycles {
            cycles: CycleWords {
                nets: Seq::from_vec(nets),
                moves: Seq::from_vec(moves),
            },
        })
    }

    /// Whether some cycle shows that a register does not hold its bit where a literal is 0.
    pub fn show_move(&self, machine: &Machine, literal: NetLit, reg: RegId) -> bool
        requires cycles { AreCycles machine.now self.now.cycles }
        requires register { reg < length machine.now.circuit.registers }
        requires net { literal.0 < length machine.now.circuit.names }
        ensures { result ≡ true → is_never machine.now (hold_question literal reg) ≡ false }
    {
        let _netlist = machine.netlist();
        let moves = self.cycles.moves.as_slice()[reg.number() as usize];
        has_one(self.cycles.zeros(machine, literal) & moves)
    }

    /// Whether some cycle shows that a literal can be 0.
    pub fn show_idle(&self, machine: &Machine, literal: NetLit) -> bool
        requires cycles { AreCycles machine.now self.now.cycles }
        requires net { literal.0 < length machine.now.circuit.names }
        ensures { result ≡ true → is_never machine.now (idle_question (literal ∷ [])) ≡ false }
    {
        let _netlist = machine.netlist();
        has_one(self.cycles.zeros(machine, literal))
    }
}

impl CycleWords {
    /// The cycles in which a literal is 0.
    fn zeros(&self, machine: &Machine, literal: NetLit) -> u64
        requires cycles { AreCycles machine.now self.now }
        requires net { literal.0 < length machine.now.circuit.names }
        ensures { IsWord result (λ i. not (literal_bit (bit (lane i self.now.nets)) literal)) }
    {
        let _netlist = machine.netlist();
        zeros(self.nets.as_slice(), literal)
    }
}
