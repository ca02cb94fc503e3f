//! Rows of a stimulus, played on a netlist.

ghost use Rattle.std.specs.Prelude.{◌≡◌, ◌≤◌, ◌++◌, ◌∷◌, [], List, true, false, Ok, length, drop, replicate, IfOk, OnOk};
ghost use Rattle.std.specs.List.{count_by};
ghost use Rattle.cg_netlist.specs.Circuit.{data_inputs};
ghost use Rattle.cg_netlist.specs.History.{Moment, Tick};
ghost use Rattle.cg_netlist.specs.Netlist.{IsNetlist};
ghost use Rattle.cg_edge.specs.Shows.{ShowsOn};
ghost use Rattle.cg_edge.specs.Simulated.{MayTick, Ticks, fresh};
ghost use Rattle.cg_limit.specs.declared.TheConstants.{MOST_REGISTERS};
ghost use Rattle.cg_stimulus.specs.Inputs.{IsFor};
ghost use Rattle.cg_stimulus.specs.Played.{IsPlayed, played_start, played_wave};
ghost use Rattle.cg_report.specs.inner.Giving.{Given, MayGive};
ghost use Rattle.cg_report.specs.Place.{GivesStep, IsAt, MayWatch, Place, Steps};

use crate::risen::risen;
use crate::watcher::Watcher;
use cg_edge::simulator::Simulator;
use cg_net::id::RegId;
use cg_netlist::netlist::Netlist;
use cg_stimulus::stimulus::Stimulus;
use std::alloc::{AllocError, Global};
use std::marker::Model;

/// What the next moment is.
#[derive(Clone, Copy, Debug)]
enum Next {
    /// The low moment of the next row, or behind the last row the last moment.
    Low,
    /// The high moment of the row.
    High,
    /// Nothing.
    Ended,
}

/// A netlist on which the rows of a stimulus are played.
///
/// Clauses see a `Place`; which moments of the played history it is behind is said by `IsAt`.
#[derive(Drop)]
pub struct Player<'a> {
    simulator: Simulator<'a>,
    stimulus: &'a Stimulus,
    inputs: Vec<bool>,
    row: u32,
    next: Next,
    edges: u64,
}

impl<'a> Model for Player<'a> {
    ghost use Rattle.std.specs.Prelude.{length};
    ghost use Rattle.std.specs.Coded.{codes};
    ghost use Rattle.cg_cell.specs.TermCode.{term_code};
    ghost use Rattle.cg_netlist.specs.Circuit.{data_inputs};
    ghost use Rattle.cg_report.specs.inner.Giving.{Given, MayGive};
    ghost use Rattle.cg_report.specs.Place.{Place};
    ghost use Rattle.cg_report.specs.inner.Playing.{IsPlayer, left_of};

    ghost Value = { Place };

    ghost coded = { Prim.hlevel (codes, term_code) };

    ghost view = { λ p. record {
      simulated = p.simulator;
      rows = p.stimulus.now.rows;
      left = left_of
          (length (data_inputs p.simulator.circuit)) p.next p.inputs.items p.row p.stimulus.now.rows;
      edges = p.edges;
    } };

    ghost invariant = { λ p. IsPlayer p.simulator p.stimulus.now p.inputs.items p.row p.next p.edges };
}

impl<'a> Player<'a> {
    /// A player before the first moment. The netlist's data inputs must begin with those for which the stimulus is; the others
    /// are 0. Registers start at their init, with 2 and 3 taken as 0.
    #[tactic(auto, using(crate::proofs::PlayedOn::first_left))]
    pub fn new(
        alloc: Global,
        netlist: &'a Netlist,
        stimulus: &'a Stimulus,
    ) -> Result<Player<'a>, AllocError>
        requires { IsFor netlist.now stimulus.now }
        ensures simulated { IfOk result (λ player. player.simulated ≡ fresh netlist.entry.now (played_start netlist.entry.now)) }
        ensures rows { IfOk result (λ player. player.rows ≡ stimulus.entry.now.rows) }
        ensures left { IfOk result (λ player. player.left ≡ played_wave netlist.entry.now stimulus.entry.now.rows) }
        ensures at { IfOk result (λ player. IsAt player [] []) }
    {
        let inputs = zeros(alloc, netlist)?;
        let start = start_of(alloc, netlist)?;
        let simulator = Simulator::new(alloc, netlist, &start)?;
        let _ = netlist.nets();
        let _ = stimulus.rows();
        Ok(Player {
            simulator,
            stimulus,
            inputs,
            row: 0,
            next: Next::Low,
            edges: 0,
        })
    }

    /// Whether the clock is high at the next moment.
    fn is_high(&self) -> bool
        ensures { (tick : Tick) (later : List Tick) → self.now.left ≡ tick ∷ later → result ≡ tick.clock }
    {
        matches!(self.next, Next::High)
    }

    /// Plays the next moment and answers true; or answers false, where all moments were played, and changes nothing.
    pub fn step(&mut self) -> bool
        ensures steps { Steps result self.old self.new }
    {
        match self.next {
            Next::Ended => return false,
            Next::High => {
                self.edges += play(&mut self.simulator, true, &self.inputs);
                self.row += 1;
                self.next = Next::Low;
            },
            Next::Low if self.row < self.stimulus.rows() => {
                set_row(&mut self.inputs, self.stimulus.row(self.row));
                self.edges += play(&mut self.simulator, false, &self.inputs);
                self.next = Next::High;
            },
            Next::Low => {
                self.edges += play(&mut self.simulator, false, &self.inputs);
                self.next = Next::Ended;
            },
        }
        true
    }

    /// Plays the next moment, shows it to a watcher and answers true; or answers false, where all moments were played, and
    /// changes nothing.
    ///
    /// The watcher must stand for moments of the player's netlist. Errs where the watcher finds no memory for the moment; then
    /// nothing is known of what it stands for.
    pub fn show(&mut self, watcher: &mut Box<dyn Watcher>) -> Result<bool, AllocError>
        requires { MayWatch (stands watcher.old) self.old }
        ensures steps { IfOk result (λ went. Steps went self.old self.new) }
        ensures given { IfOk result (λ went. GivesStep went (stands watcher.old) (stands watcher.new) self.old self.new) }
        ensures none_given { result ≡ Ok false → watcher.new ≡ watcher.old }
        ensures same_name { called watcher.new ≡ called watcher.old }
        ensures same_kind { says watcher.new ≡ says watcher.old }
    {
        let clock = self.is_high();
        if !self.step() {
            return Ok(false);
        }
        give(self.simulator(), clock, watcher)?;
        Ok(true)
    }

    /// The edges of the moments that were played.
    pub fn edges(&self) -> u64
        ensures edges { result ≡ self.now.edges }
        ensures whole { self.now.left ≡ [] → (wave : List Tick) (played : List Moment) → IsAt self.now wave played
            → IsPlayed self.now.simulated.circuit self.now.rows played }
    {
        self.edges
    }

    /// The simulator at the present moment.
    pub fn simulator(&self) -> &Simulator<'a>
        ensures { result.now ≡ self.now.simulated }
    {
        &self.simulator
    }
}

/// The bits that the registers start with.
fn start_of(alloc: Global, netlist: &Netlist) -> Result<Vec<bool>, AllocError>
    ensures { IfOk result (λ start. start.items ≡ played_start netlist.now) }
{
    let mut start = Vec::new(alloc);
    'registers: for number in 0..netlist.registers() {
        start.push(netlist.register(RegId::new(number)).init == 1)?;
    }
    Ok(start)
}

/// A zero for each data input.
fn zeros(alloc: Global, netlist: &Netlist) -> Result<Vec<bool>, AllocError>
    ensures { IfOk result (λ bits. bits.items ≡ replicate (length (data_inputs netlist.now)) false) }
{
    vec![in alloc; false; netlist.data_inputs().len()]
}

/// Puts the bits of a row at the front of the inputs.
fn set_row(inputs: &mut [bool], row: &[bool])
    requires { length row.now ≤ length inputs.old }
    ensures filled { inputs.new ≡ row.now ++ drop (length row.now) inputs.old }
    ensures long { length inputs.new ≡ length inputs.old }
{
    inputs[..row.len()].copy_from_slice(row);
}

/// Shows a watcher the present moment, at which the clock has this bit.
fn give(
    simulator: &Simulator<'_>,
    clock: bool,
    watcher: &mut Box<dyn Watcher>,
) -> Result<(), AllocError>
    requires may { MayGive (stands watcher.old) simulator.now }
    ensures given { OnOk result (Given (stands watcher.old) (stands watcher.new) simulator.now clock) }
    ensures same_name { called watcher.new ≡ called watcher.old }
    ensures same_kind { says watcher.new ≡ says watcher.old }
{
    watcher.moment(clock, simulator.nets(), simulator.rises())
}

/// Goes to the next moment, and answers how many registers rose.
fn play(simulator: &mut Simulator<'_>, clock: bool, inputs: &[bool]) -> u64
    requires may { MayTick simulator.old (record { clock = clock; inputs = inputs.now }) }
    requires netlist { IsNetlist simulator.old.circuit }
    ensures ticks { Ticks simulator.old simulator.new (record { clock = clock; inputs = inputs.now }) }
    ensures shows { ShowsOn simulator.old simulator.new (record { clock = clock; inputs = inputs.now }) }
    ensures rises { result ≡ count_by (λ rose. rose) simulator.new.rose }
    ensures within { result ≤ MOST_REGISTERS }
{
    simulator.tick(clock, inputs);
    risen(simulator.rises())
}
