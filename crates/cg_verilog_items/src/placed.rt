//! Reading a placed cell.

ghost use Rattle.std.specs.Prelude.{◌≡◌};
ghost use Rattle.cg_verilog_text.specs.Items.{ended, pin, pin_net, placed};
ghost use Rattle.cg_verilog_text.specs.Reading.{after, ended_by, is_label, mark, name, pass, separated};
ghost use Rattle.cg_verilog_expression.specs.Readings.{IsRead};
ghost use Rattle.cg_verilog_items.specs.ItemParts.{rest_of_placed};

use crate::item::{Item, ItemKind};
use cg_list::Seq;
use cg_verilog_expression::net::Net;
use cg_verilog_expression::reading::{Piece, Reading};
use cg_verilog_expression::stop::Stop;
use cg_verilog_tokens::identifier::Identifier;
use std::alloc::Global;
use std::marker::Model;

/// A pin of a placed cell, and the net at it where one is named.
#[derive(Drop)]
pub struct Pin<'a> {
    /// The name of the pin.
    pub pin: Identifier<'a>,

    /// The net.
    pub net: Option<Net<'a>>,
}

impl<'a> Model for Pin<'a> {
    ghost use Rattle.cg_netlist_placed.specs.PinNets.{PinNet};

    ghost Value = { PinNet };

    ghost view = { λ p. record { pin = p.pin; net = p.net } };
}

/// Reads a placed cell.
pub(crate) fn read_placed<'a>(alloc: Global, reading: &mut Reading<'a>) -> Result<Item<'a>, Stop>
    ensures end { reading.new.1 ≡ reading.old.1 }
    ensures left { IsRead reading.old.1 (placed reading.old.0) reading.new.0 result }
{
    let cell = reading.name()?;
    read_rest_of_placed(alloc, reading, cell)
}

/// Reads a placed cell behind its name.
fn read_rest_of_placed<'a>(
    alloc: Global,
    reading: &mut Reading<'a>,
    cell: Identifier<'a>,
) -> Result<Item<'a>, Stop>
    ensures end { reading.new.1 ≡ reading.old.1 }
    ensures left { IsRead reading.old.1 (rest_of_placed cell.entry reading.old.0) reading.new.0 result }
{
    let label = read_opened_label(reading)?;
    let pins = read_ended_pins(alloc, reading)?;
    Ok(Item {
        kind: ItemKind::Place(cell, label, pins),
    })
}

/// Reads the name of an instance, and the `(`.
fn read_opened_label<'a>(reading: &mut Reading<'a>) -> Result<Piece<'a>, Stop>
    ensures end { reading.new.1 ≡ reading.old.1 }
    ensures left { IsRead reading.old.1 (ended_by 40 (pass is_label reading.old.0)) reading.new.0 result }
{
    let label = reading.label()?;
    reading.mark(b'(')?;
    Ok(label)
}

/// Reads pins, the `)` and the `;`.
fn read_ended_pins<'a>(alloc: Global, reading: &mut Reading<'a>) -> Result<Seq<Pin<'a>>, Stop>
    ensures end { reading.new.1 ≡ reading.old.1 }
    ensures left { IsRead reading.old.1 (ended (ended_by 41 (separated 44 pin reading.old.0))) reading.new.0 result }
{
    let pins = read_closed_pins(alloc, reading)?;
    reading.mark(b';')?;
    Ok(pins)
}

/// Reads pins and the `)`.
fn read_closed_pins<'a>(alloc: Global, reading: &mut Reading<'a>) -> Result<Seq<Pin<'a>>, Stop>
    ensures end { reading.new.1 ≡ reading.old.1 }
    ensures left { IsRead reading.old.1 (ended_by 41 (separated 44 pin reading.old.0)) reading.new.0 result }
{
    let pins = read_pins(alloc, reading)?;
    reading.mark(b')')?;
    Ok(pins)
}

/// Reads one or more pins with a comma between each two.
fn read_pins<'a>(alloc: Global, reading: &mut Reading<'a>) -> Result<Seq<Pin<'a>>, Stop>
    ensures end { reading.new.1 ≡ reading.old.1 }
    ensures left { IsRead reading.old.1 (separated 44 pin reading.old.0) reading.new.0 result }
{
    let mut pins = Seq::new(alloc);
    'pins: loop {
        match read_pin(alloc, reading) {
            Err(stop) => return Err(stop),
            Ok(pin) => pins.push(pin)?,
        }
        if !reading.is_mark(b',') {
            return Ok(pins);
        }
        reading.pass();
    }
}

/// Reads a pin.
fn read_pin<'a>(alloc: Global, reading: &mut Reading<'a>) -> Result<Pin<'a>, Stop>
    ensures end { reading.new.1 ≡ reading.old.1 }
    ensures left { IsRead reading.old.1 (pin reading.old.0) reading.new.0 result }
{
    let pin = read_opened_pin(reading)?;
    let net = read_closed_pin_net(alloc, reading)?;
    Ok(Pin { pin, net })
}

/// Reads the name of a pin, and the `(`.
fn read_opened_pin<'a>(reading: &mut Reading<'a>) -> Result<Identifier<'a>, Stop>
    ensures end { reading.new.1 ≡ reading.old.1 }
    ensures left { IsRead reading.old.1 (ended_by 40 (after (mark 46 reading.old.0) (λ _. name))) reading.new.0 result }
{
    let pin = read_pin_name(reading)?;
    reading.mark(b'(')?;
    Ok(pin)
}

/// Reads the `.` and the name of a pin.
fn read_pin_name<'a>(reading: &mut Reading<'a>) -> Result<Identifier<'a>, Stop>
    ensures end { reading.new.1 ≡ reading.old.1 }
    ensures left { IsRead reading.old.1 (after (mark 46 reading.old.0) (λ _. name)) reading.new.0 result }
{
    reading.mark(b'.')?;
    reading.name()
}

/// Reads the net at a pin, if one is named, and the `)`.
fn read_closed_pin_net<'a>(
    alloc: Global,
    reading: &mut Reading<'a>,
) -> Result<Option<Net<'a>>, Stop>
    ensures end { reading.new.1 ≡ reading.old.1 }
    ensures left { IsRead reading.old.1 (ended_by 41 (pin_net reading.old.0)) reading.new.0 result }
{
    let net = read_pin_net(alloc, reading)?;
    reading.mark(b')')?;
    Ok(net)
}

/// Reads the net at a pin, if one is named.
fn read_pin_net<'a>(alloc: Global, reading: &mut Reading<'a>) -> Result<Option<Net<'a>>, Stop>
    ensures end { reading.new.1 ≡ reading.old.1 }
    ensures left { IsRead reading.old.1 (pin_net reading.old.0) reading.new.0 result }
{
    if reading.is_mark(b')') {
        return Ok(None);
    }
    let net = reading.net(alloc)?;
    Ok(Some(net))
}
