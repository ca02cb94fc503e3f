//! What is said of the rows that are played: a line for each, and the edges.

ghost use Rattle.std.specs.Prelude.{◌≡◌, ◌<◌, ◌+◌, ◌++◌, ◌∷◌, List, Some, length, map, IsSome, OnOk};
ghost use Rattle.std.specs.List.{All};
ghost use Rattle.cg_netlist.specs.History.{Moment};
ghost use Rattle.cg_netlist.specs.Moment.{bit};
ghost use Rattle.cg_stimulus.specs.Inputs.{IsFor};
ghost use Rattle.cg_stimulus.specs.Played.{IsPlayed};
ghost use Rattle.cg_stimulus.specs.StimText.{bit_byte};
ghost use Rattle.cg_report.specs.RowLines.{edges_line, output_word, rows_text};
ghost use Rattle.cg_report.specs.inner.RowByRow.{HasRow, IsFirst};
ghost use Rattle.cg_report.specs.inner.Saying.{SaysRow};

use crate::player::Player;
use cg_edge::simulator::Simulator;
use cg_net::id::NetId;
use cg_netlist::netlist::Netlist;
use cg_stimulus::played::one_played_history;
use cg_stimulus::stimulus::Stimulus;
use cg_text::number::push_number;
use std::alloc::{AllocError, Global};

/// Puts the lines of the rows behind a text, where they are played on the netlist, and then the line of the edges.
///
/// The netlist's data inputs must begin with those for which the stimulus is.
pub fn push_rows(
    alloc: Global,
    netlist: &Netlist,
    stimulus: &Stimulus,
    text: &mut Vec<u8>,
) -> Result<(), AllocError>
    requires { IsFor netlist.now stimulus.now }
    ensures { OnOk result ((history : List Moment) → IsPlayed netlist.now stimulus.now.rows history
        → text.new.items ≡ text.old.items ++ rows_text netlist.now history) }
{
    one_played_history(netlist, stimulus);
    let mut player = Player::new(alloc, netlist, stimulus)?;
    push_all(&mut player, stimulus.rows(), text)
}

/// Plays all rows, and puts their lines and that of the edges behind the text.
fn push_all(player: &mut Player<'_>, rows: u32, text: &mut Vec<u8>) -> Result<(), AllocError>
    requires { IsFirst rows player.old }
    ensures { OnOk result ((history : List Moment) → IsPlayed player.old.simulated.circuit player.old.rows history
        → text.new.items ≡ text.old.items ++ rows_text player.old.simulated.circuit history) }
{
    'rows: for row in 0..rows {
        push_row(player, row, text)?;
    }
    player.step();
    push_edges(player.edges(), text)
}

/// Puts the line of the edges behind the text.
pub(crate) fn push_edges(count: u64, text: &mut Vec<u8>) -> Result<(), AllocError>
    ensures { OnOk result (text.new.items ≡ text.old.items ++ edges_line count) }
{
    text.extend_from_slice(b"edges ")?;
    push_number(text, count)?;
    text.push(b'\n')?;
    Ok(())
}

/// Plays both moments of a row, and puts its line behind the text; rows are numbered from 0, and in their lines from 1.
fn push_row(player: &mut Player<'_>, row: u32, text: &mut Vec<u8>) -> Result<(), AllocError>
    requires { HasRow player.old.left }
    ensures { OnOk result (SaysRow (row + 1) player.old player.new text.old.items text.new.items) }
{
    push_number(text, u64::from(row) + 1)?;
    player.step();
    push_outputs(player.simulator(), text)?;
    player.step();
    push_outputs(player.simulator(), text)?;
    text.push(b'\n')?;
    Ok(())
}

/// Puts the present bits of the outputs behind the text, as a word of its own.
pub(crate) fn push_outputs(simulator: &Simulator<'_>, text: &mut Vec<u8>) -> Result<(), AllocError>
    requires { IsSome simulator.now.present }
    ensures { OnOk result ((now : Moment) → simulator.now.present ≡ Some now
        → text.new.items ≡ text.old.items ++ 32 ∷ output_word simulator.now.circuit.outputs now.nets) }
{
    let netlist = simulator.netlist();
    let _ = netlist.nets();
    text.push(b' ')?;
    push_word(netlist.outputs(), simulator.nets(), text)
}

/// Puts the bits of these outputs behind the text, or `-` where there are none.
fn push_word(outputs: &[NetId], nets: &[bool], text: &mut Vec<u8>) -> Result<(), AllocError>
    requires { All (λ net. net < length nets.now) outputs.now }
    ensures { OnOk result (text.new.items ≡ text.old.items ++ output_word outputs.now nets.now) }
{
    if outputs.is_empty() {
        text.push(b'-')?;
        return Ok(());
    }
    push_bits(outputs, nets, text)
}

/// Puts the bits of these nets behind the text.
fn push_bits(outputs: &[NetId], nets: &[bool], text: &mut Vec<u8>) -> Result<(), AllocError>
    requires { All (λ net. net < length nets.now) outputs.now }
    ensures { OnOk result (text.new.items ≡ text.old.items ++ map (λ net. bit_byte (bit nets.now net)) outputs.now) }
{
    for output in outputs {
        text.push(bit_byte(nets[output.number() as usize]))?;
    }
    Ok(())
}

/// A bit as a byte.
fn bit_byte(bit: bool) -> u8
    ensures { result ≡ bit_byte bit }
{
    if bit { b'1' } else { b'0' }
}
