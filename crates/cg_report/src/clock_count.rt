//! The watcher that counts the rises of each clock net.

ghost use Rattle.std.specs.Prelude.{◌≡◌, ◌≤◌, ◌<◌, ◌==◌, ◌++◌, ◌∷◌, [], List, Bool, length, map, if◌then◌else◌, IfOk, OnOk};
ghost use Rattle.std.specs.List.{All};
ghost use Rattle.std.specs.Option.{option_to_list};
ghost use Rattle.cg_limit.specs.declared.TheConstants.{MOST_ROWS};
ghost use Rattle.cg_netlist.specs.Circuit.{Circuit, gater_outputs};
ghost use Rattle.cg_netlist.specs.History.{Moment, edges};
ghost use Rattle.cg_netlist.specs.Moment.{bit};
ghost use Rattle.cg_netlist.specs.Netlist.{IsNetlist};
ghost use Rattle.cg_stimulus.specs.Played.{IsPlayed};
ghost use Rattle.cg_report.specs.ClockLines.{clock_lines, clock_text, line_edges, lines_text};
ghost use Rattle.cg_report.specs.Place.{played_moments};
ghost use Rattle.cg_report.specs.inner.ClockCounting.{AreClocked, kept, line_of, with_bit};

use crate::watcher::Watcher;
use cg_list::Seq;
use cg_net::id::{GateClockId, NetId, RegId};
use cg_netlist::netlist::Netlist;
use cg_text::number::push_number;
use std::alloc::{AllocError, Global};

/// Counts for each clock net how often it rises; a count stops at the end of its type.
///
/// It keeps the clock nets alone, so that a moment costs as much as there are of them, however many registers they clock.
#[derive(Debug, Drop)]
pub struct ClockCount {
    alloc: Global,
    clocks: Vec<ClockNet>,
}

/// A clock net: how many registers it clocks, whether it was high at the last moment, and how often it rose so far.
#[derive(Debug, Drop)]
struct ClockNet {
    net: NetId,
    name: Seq<u8>,
    registers: u32,
    high: bool,
    rises: u64,
}

impl ClockCount {
    /// A watcher with the name `clocks`. Of rows that are played its lines account for every edge: the registers of a line times its
    /// rises, summed over the lines, are the edges of the history.
    pub fn new(alloc: Global) -> ClockCount
        ensures edges { (c : Circuit) (rows : List (List Bool)) (history : List Moment) → IsNetlist c → length rows ≤ MOST_ROWS
            → IsPlayed c rows history → line_edges (clock_lines c (played_moments c rows history)) ≡ edges c history }
    {
        ClockCount {
            alloc,
            clocks: Vec::new(alloc),
        }
    }
}

impl Watcher for ClockCount {
    ghost use Rattle.std.specs.Prelude.{codes};
    ghost use Rattle.cg_report.specs.ClockLines.{clocks_text};
    ghost use Rattle.cg_report.specs.inner.ClockCounting.{Stands};

    ghost called = { λ w. codes "clocks" };

    ghost says = { λ w. clocks_text };

    ghost stands = { Stands };

    fn name(&self) -> &str {
        "clocks"
    }

    fn begin(&mut self, netlist: &Netlist) -> Result<(), AllocError> {
        let _nets = netlist.nets();
        let registers = registers_by_net(self.alloc, netlist)?;
        self.clocks.clear();
        push_clock(self.alloc, netlist, &registers, &mut self.clocks)?;
        push_gaters(self.alloc, netlist, &registers, &mut self.clocks)
    }

    fn moment(&mut self, _clock: bool, nets: &[bool], _rose: &[bool]) -> Result<(), AllocError> {
        take_bits(nets, self.clocks.as_mut_slice());
        Ok(())
    }

    fn line(&self, out: &mut Vec<u8>) -> Result<(), AllocError> {
        push_lines(&self.clocks, out)
    }
}

/// For each net how many registers have it as their clock net.
fn registers_by_net(alloc: Global, netlist: &Netlist) -> Result<Vec<u32>, AllocError>
    ensures { IfOk result (λ registers. AreClocked netlist.now (length netlist.now.registers) registers.items) }
{
    let mut registers = vec![in alloc; 0; netlist.nets() as usize]?;
    for register in 0..netlist.registers() {
        let clock = netlist.register(RegId::new(register)).clock;
        registers[clock.number() as usize] += 1;
    }
    Ok(registers)
}

/// Puts the clock behind the clock nets, where there is one.
fn push_clock(
    alloc: Global,
    netlist: &Netlist,
    registers: &[u32],
    clocks: &mut Vec<ClockNet>,
) -> Result<(), AllocError>
    requires { AreClocked netlist.now (length netlist.now.registers) registers.now }
    ensures { OnOk result (clocks.new.items ≡ clocks.old.items ++ map (kept netlist.now []) (option_to_list netlist.now.clock)) }
{
    let _nets = netlist.nets();
    match netlist.clock() {
        Some(net) => push_net(alloc, netlist, registers, net, clocks),
        None => Ok(()),
    }
}

/// Puts the outputs of the gating cells behind the clock nets.
fn push_gaters(
    alloc: Global,
    netlist: &Netlist,
    registers: &[u32],
    clocks: &mut Vec<ClockNet>,
) -> Result<(), AllocError>
    requires { AreClocked netlist.now (length netlist.now.registers) registers.now }
    ensures { OnOk result (clocks.new.items ≡ clocks.old.items ++ map (kept netlist.now []) (gater_outputs netlist.now)) }
{
    for gater in 0..netlist.gaters() {
        let net = netlist.gater(GateClockId::new(gater)).output;
        push_net(alloc, netlist, registers, net, clocks)?;
    }
    Ok(())
}

/// Puts a net behind the clock nets.
fn push_net(
    alloc: Global,
    netlist: &Netlist,
    registers: &[u32],
    net: NetId,
    clocks: &mut Vec<ClockNet>,
) -> Result<(), AllocError>
    requires counted { AreClocked netlist.now (length netlist.now.registers) registers.now }
    requires net { net < length netlist.now.names }
    ensures { OnOk result (clocks.new.items ≡ clocks.old.items ++ kept netlist.now [] net ∷ []) }
{
    let clock = clock_net(alloc, netlist, registers, net)?;
    clocks.push(clock)?;
    Ok(())
}

/// A clock net of which no moment was shown yet.
fn clock_net(
    alloc: Global,
    netlist: &Netlist,
    registers: &[u32],
    net: NetId,
) -> Result<ClockNet, AllocError>
    requires counted { AreClocked netlist.now (length netlist.now.registers) registers.now }
    requires net { net < length netlist.now.names }
    ensures { IfOk result (λ clock. clock ≡ kept netlist.now [] net) }
{
    let name = Vec::from_slice(alloc, netlist.name(net))?;
    Ok(ClockNet {
        net,
        name: Seq::from_vec(name),
        registers: registers[net.number() as usize],
        high: true,
        rises: 0,
    })
}

/// Each clock net takes its bit at the next moment.
fn take_bits(nets: &[bool], clocks: &mut [ClockNet])
    requires { All (λ clock. clock.net < length nets.now) clocks.old }
    ensures { clocks.new ≡ map (λ clock. with_bit clock (bit nets.now clock.net)) clocks.old }
{
    for clock in clocks.iter_mut() {
        take_bit(nets, clock);
    }
}

/// A clock net takes its bit at the next moment.
fn take_bit(nets: &[bool], clock: &mut ClockNet)
    requires { clock.old.net < length nets.now }
    ensures { clock.new ≡ with_bit clock.old (bit nets.now clock.old.net) }
{
    let now = nets[clock.net.number() as usize];
    if now && !clock.high {
        clock.rises = clock.rises.saturating_add(1);
    }
    clock.high = now;
}

/// Puts the lines of the clock nets behind a text, with an end of line between them.
fn push_lines(clocks: &[ClockNet], text: &mut Vec<u8>) -> Result<(), AllocError>
    ensures { OnOk result (text.new.items ≡ text.old.items ++ lines_text (map (λ clock. clock_text (line_of clock)) clocks.now)) }
{
    for (place, clock) in clocks.iter().enumerate() {
        push_break(place, text)?;
        push_line(clock, text)?;
    }
    Ok(())
}

/// Puts an end of line behind a text, but not before the line at the first place.
fn push_break(place: usize, text: &mut Vec<u8>) -> Result<(), AllocError>
    ensures { OnOk result (text.new.items ≡ text.old.items ++ (if place == 0 then [] else 10 ∷ [])) }
{
    if place == 0 {
        return Ok(());
    }
    text.push(b'\n')?;
    Ok(())
}

/// Puts the line of a clock net behind a text.
fn push_line(clock: &ClockNet, text: &mut Vec<u8>) -> Result<(), AllocError>
    ensures { OnOk result (text.new.items ≡ text.old.items ++ clock_text (line_of clock.now)) }
{
    text.extend_from_slice(b"clock ")?;
    text.extend_from_slice(clock.name.as_slice())?;
    text.extend_from_slice(b" registers ")?;
    push_number(text, u64::from(clock.registers))?;
    text.extend_from_slice(b" rises ")?;
    push_number(text, clock.rises)
}
