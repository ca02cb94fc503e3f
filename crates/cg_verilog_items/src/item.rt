//! Reading an item.

ghost use Rattle.std.specs.Prelude.{◌≡◌};
ghost use Rattle.cg_verilog_text.specs.Forms.{form};
ghost use Rattle.cg_verilog_text.specs.Items.{Input as InputItem, Output as OutputItem, Wire as WireItem, assignment, declaration, ended, initial};
ghost use Rattle.cg_verilog_text.specs.Items.{item, rarer_item, register_declaration};
ghost use Rattle.cg_verilog_text.specs.Reading.{bit, ended_by, net};
ghost use Rattle.cg_verilog_expression.specs.Readings.{IsRead};

use crate::always::{Update, read_rising};
use crate::declaration::{Declared, Range, read_ended_registers, read_range};
use crate::names::read_ended_names;
use crate::placed::{Pin, read_placed};
use cg_list::Seq;
use cg_verilog_expression::form::Form;
use cg_verilog_expression::net::Net;
use cg_verilog_expression::reading::{Piece, Reading};
use cg_verilog_expression::stop::Stop;
use cg_verilog_tokens::identifier::Identifier;
use std::alloc::Global;
use std::marker::Model;

/// What an item is.
#[derive(Drop)]
pub enum ItemKind<'a> {
    /// Inputs.
    Input(Option<Range<'a>>, Seq<Identifier<'a>>),

    /// Outputs.
    Output(Option<Range<'a>>, Seq<Identifier<'a>>),

    /// Wires.
    Wire(Option<Range<'a>>, Seq<Identifier<'a>>),

    /// Registers that are declared.
    Reg(Option<Range<'a>>, Seq<Declared<'a>>),

    /// A placed cell with its label and what is said of its pins.
    Place(Identifier<'a>, Piece<'a>, Seq<Pin<'a>>),

    /// A net that is a form.
    Assign(Net<'a>, Form<'a>),

    /// The clock at which registers rise, and these.
    Always(Net<'a>, Seq<Update<'a>>),

    /// The init of a register.
    Initial(Net<'a>, bool),
}

/// An item.
#[derive(Drop)]
pub struct Item<'a> {
    /// What it is.
    pub kind: ItemKind<'a>,
}

impl<'a> Model for Item<'a> {
    ghost use Rattle.cg_verilog_text.specs.Items.{Item as ItemSeen};
    ghost use Rattle.cg_verilog_items.specs.ItemSeen.{item_seen};

    ghost Value = { ItemSeen };

    ghost view = { λ i. item_seen i.kind };
}

/// Reads an item.
pub fn read_item<'a>(alloc: Global, reading: &mut Reading<'a>) -> Result<Item<'a>, Stop>
    ensures end { reading.new.1 ≡ reading.old.1 }
    ensures left { IsRead reading.old.1 (item reading.old.0) reading.new.0 result }
{
    if reading.is_word(b"assign") {
        reading.pass();
        read_assignment(alloc, reading)
    } else if reading.is_word(b"input") {
        reading.pass();
        read_inputs(alloc, reading)
    } else if reading.is_word(b"output") {
        reading.pass();
        read_outputs(alloc, reading)
    } else {
        read_rarer_item(alloc, reading)
    }
}

/// Reads an item that is no assignment, input or output.
fn read_rarer_item<'a>(alloc: Global, reading: &mut Reading<'a>) -> Result<Item<'a>, Stop>
    ensures end { reading.new.1 ≡ reading.old.1 }
    ensures left { IsRead reading.old.1 (rarer_item reading.old.0) reading.new.0 result }
{
    if reading.is_word(b"always") {
        reading.pass();
        read_rising(alloc, reading)
    } else if reading.is_word(b"initial") {
        reading.pass();
        read_initial(alloc, reading)
    } else if reading.is_word(b"wire") {
        reading.pass();
        read_wires(alloc, reading)
    } else if reading.is_word(b"reg") {
        reading.pass();
        read_register_declaration(alloc, reading)
    } else {
        read_placed(alloc, reading)
    }
}

/// Reads inputs.
fn read_inputs<'a>(alloc: Global, reading: &mut Reading<'a>) -> Result<Item<'a>, Stop>
    ensures end { reading.new.1 ≡ reading.old.1 }
    ensures left { IsRead reading.old.1 (declaration InputItem reading.old.0) reading.new.0 result }
{
    let range = read_range(reading)?;
    let names = read_ended_names(alloc, reading)?;
    Ok(Item {
        kind: ItemKind::Input(range, names),
    })
}

/// Reads outputs.
fn read_outputs<'a>(alloc: Global, reading: &mut Reading<'a>) -> Result<Item<'a>, Stop>
    ensures end { reading.new.1 ≡ reading.old.1 }
    ensures left { IsRead reading.old.1 (declaration OutputItem reading.old.0) reading.new.0 result }
{
    let range = read_range(reading)?;
    let names = read_ended_names(alloc, reading)?;
    Ok(Item {
        kind: ItemKind::Output(range, names),
    })
}

/// Reads wires.
fn read_wires<'a>(alloc: Global, reading: &mut Reading<'a>) -> Result<Item<'a>, Stop>
    ensures end { reading.new.1 ≡ reading.old.1 }
    ensures left { IsRead reading.old.1 (declaration WireItem reading.old.0) reading.new.0 result }
{
    let range = read_range(reading)?;
    let names = read_ended_names(alloc, reading)?;
    Ok(Item {
        kind: ItemKind::Wire(range, names),
    })
}

/// Reads registers that are declared.
fn read_register_declaration<'a>(alloc: Global, reading: &mut Reading<'a>) -> Result<Item<'a>, Stop>
    ensures end { reading.new.1 ≡ reading.old.1 }
    ensures left { IsRead reading.old.1 (register_declaration reading.old.0) reading.new.0 result }
{
    let range = read_range(reading)?;
    let registers = read_ended_registers(alloc, reading, &range)?;
    Ok(Item {
        kind: ItemKind::Reg(range, registers),
    })
}

/// Reads an assignment.
fn read_assignment<'a>(alloc: Global, reading: &mut Reading<'a>) -> Result<Item<'a>, Stop>
    ensures end { reading.new.1 ≡ reading.old.1 }
    ensures left { IsRead reading.old.1 (assignment reading.old.0) reading.new.0 result }
{
    let output = read_assigned(alloc, reading)?;
    let form = read_ended_form(alloc, reading)?;
    Ok(Item {
        kind: ItemKind::Assign(output, form),
    })
}

/// Reads the net to which something is assigned, and the `=`.
fn read_assigned<'a>(alloc: Global, reading: &mut Reading<'a>) -> Result<Net<'a>, Stop>
    ensures end { reading.new.1 ≡ reading.old.1 }
    ensures left { IsRead reading.old.1 (ended_by 61 (net reading.old.0)) reading.new.0 result }
{
    let net = reading.net(alloc)?;
    reading.mark(b'=')?;
    Ok(net)
}

/// Reads a form and the `;`.
fn read_ended_form<'a>(alloc: Global, reading: &mut Reading<'a>) -> Result<Form<'a>, Stop>
    ensures end { reading.new.1 ≡ reading.old.1 }
    ensures left { IsRead reading.old.1 (ended (form reading.old.0)) reading.new.0 result }
{
    let form = reading.form(alloc)?;
    reading.mark(b';')?;
    Ok(form)
}

/// Reads the init of a register.
fn read_initial<'a>(alloc: Global, reading: &mut Reading<'a>) -> Result<Item<'a>, Stop>
    ensures end { reading.new.1 ≡ reading.old.1 }
    ensures left { IsRead reading.old.1 (initial reading.old.0) reading.new.0 result }
{
    let net = read_assigned(alloc, reading)?;
    let value = read_ended_bit(reading)?;
    Ok(Item {
        kind: ItemKind::Initial(net, value),
    })
}

/// Reads a bit and the `;`.
fn read_ended_bit(reading: &mut Reading<'_>) -> Result<bool, Stop>
    ensures end { reading.new.1 ≡ reading.old.1 }
    ensures left { IsRead reading.old.1 (ended (bit reading.old.0)) reading.new.0 result }
{
    let value = reading.bit()?;
    reading.mark(b';')?;
    Ok(value)
}
