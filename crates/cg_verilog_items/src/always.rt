//! Reading registers and the clock at which they rise.

ghost use Rattle.std.specs.Prelude.{◌≡◌, [], codes};
ghost use Rattle.cg_verilog_text.specs.Items.{arrow, block_turn, ended, event, registers, update, updates};
ghost use Rattle.cg_verilog_text.specs.Reading.{after, ended_by, mark, net, turns, word};
ghost use Rattle.cg_verilog_expression.specs.Readings.{IsPassed, IsRead};
ghost use Rattle.cg_verilog_items.specs.ItemParts.{clocked_net};

use crate::item::{Item, ItemKind};
use cg_list::Seq;
use cg_verilog_expression::net::Net;
use cg_verilog_expression::reading::Reading;
use cg_verilog_expression::stop::Stop;
use std::alloc::Global;
use std::marker::Model;

/// A register takes the bit of a net.
#[derive(Drop)]
pub struct Update<'a> {
    /// The net that the register shows.
    pub net: Net<'a>,

    /// The net whose bit it takes.
    pub takes: Net<'a>,
}

impl<'a> Model for Update<'a> {
    ghost use Rattle.cg_verilog_text.specs.Items.{Update as UpdateSeen};

    ghost Value = { UpdateSeen };

    ghost view = { λ u. record { net = u.net; takes = u.takes } };
}

/// Reads registers behind the word `always`.
pub(crate) fn read_rising<'a>(alloc: Global, reading: &mut Reading<'a>) -> Result<Item<'a>, Stop>
    ensures end { reading.new.1 ≡ reading.old.1 }
    ensures left { IsRead reading.old.1 (registers reading.old.0) reading.new.0 result }
{
    let clock = read_event(alloc, reading)?;
    let updates = read_updates(alloc, reading)?;
    Ok(Item {
        kind: ItemKind::Always(clock, updates),
    })
}

/// Reads the clock at which registers rise.
fn read_event<'a>(alloc: Global, reading: &mut Reading<'a>) -> Result<Net<'a>, Stop>
    ensures end { reading.new.1 ≡ reading.old.1 }
    ensures left { IsRead reading.old.1 (event reading.old.0) reading.new.0 result }
{
    read_opened_event(reading)?;
    read_closed_net(alloc, reading)
}

/// Reads the `@` and the `(`.
fn read_opened_event(reading: &mut Reading<'_>) -> Result<(), Stop>
    ensures end { reading.new.1 ≡ reading.old.1 }
    ensures left { IsPassed reading.old.1 (ended_by 40 (mark 64 reading.old.0)) reading.new.0 result }
{
    reading.mark(b'@')?;
    reading.mark(b'(')
}

/// Reads the rising net and the `)`.
fn read_closed_net<'a>(alloc: Global, reading: &mut Reading<'a>) -> Result<Net<'a>, Stop>
    ensures end { reading.new.1 ≡ reading.old.1 }
    ensures left { IsRead reading.old.1 (ended_by 41 (clocked_net reading.old.0)) reading.new.0 result }
{
    let net = read_clocked_net(alloc, reading)?;
    reading.mark(b')')?;
    Ok(net)
}

/// Reads the word `posedge` and the net that rises.
fn read_clocked_net<'a>(alloc: Global, reading: &mut Reading<'a>) -> Result<Net<'a>, Stop>
    ensures end { reading.new.1 ≡ reading.old.1 }
    ensures left { IsRead reading.old.1 (clocked_net reading.old.0) reading.new.0 result }
{
    reading.word(b"posedge")?;
    reading.net(alloc)
}

/// Reads a register with what it takes, or some between `begin` and `end`.
fn read_updates<'a>(alloc: Global, reading: &mut Reading<'a>) -> Result<Seq<Update<'a>>, Stop>
    ensures end { reading.new.1 ≡ reading.old.1 }
    ensures left { IsRead reading.old.1 (updates reading.old.0) reading.new.0 result }
{
    if reading.is_word(b"begin") {
        reading.pass();
        return read_block(alloc, reading);
    }
    let mut updates = Seq::new(alloc);
    updates.push(read_update(alloc, reading)?)?;
    Ok(updates)
}

/// Reads registers with what they take, and the word `end`.
fn read_block<'a>(alloc: Global, reading: &mut Reading<'a>) -> Result<Seq<Update<'a>>, Stop>
    ensures end { reading.new.1 ≡ reading.old.1 }
    ensures left { IsRead reading.old.1 (turns block_turn [] reading.old.0) reading.new.0 result }
{
    let mut updates = Seq::new(alloc);
    'updates: loop {
        if reading.is_word(b"end") {
            reading.pass();
            return Ok(updates);
        }
        match read_update(alloc, reading) {
            Err(stop) => return Err(stop),
            Ok(update) => updates.push(update)?,
        }
    }
}

/// Reads a register with what it takes.
fn read_update<'a>(alloc: Global, reading: &mut Reading<'a>) -> Result<Update<'a>, Stop>
    ensures end { reading.new.1 ≡ reading.old.1 }
    ensures left { IsRead reading.old.1 (update reading.old.0) reading.new.0 result }
{
    let net = reading.net(alloc)?;
    let takes = read_ended_taken(alloc, reading)?;
    Ok(Update { net, takes })
}

/// Reads the net that a register takes, and the `;`.
fn read_ended_taken<'a>(alloc: Global, reading: &mut Reading<'a>) -> Result<Net<'a>, Stop>
    ensures end { reading.new.1 ≡ reading.old.1 }
    ensures left { IsRead reading.old.1 (ended (after (arrow reading.old.0) (λ _. net))) reading.new.0 result }
{
    let net = read_taken(alloc, reading)?;
    reading.mark(b';')?;
    Ok(net)
}

/// Reads the `<=` and the net that a register takes.
fn read_taken<'a>(alloc: Global, reading: &mut Reading<'a>) -> Result<Net<'a>, Stop>
    ensures end { reading.new.1 ≡ reading.old.1 }
    ensures left { IsRead reading.old.1 (after (arrow reading.old.0) (λ _. net)) reading.new.0 result }
{
    reading.arrow()?;
    reading.net(alloc)
}
