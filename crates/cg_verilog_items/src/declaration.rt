//! Reading what is declared: inputs, outputs, wires and registers.

ghost use Rattle.std.specs.Prelude.{◌≡◌};
ghost use Rattle.cg_verilog_text.specs.Items.{declared, ended, range, whole_range};
ghost use Rattle.cg_verilog_text.specs.Reading.{ended_by, is_numeral, pass, separated};
ghost use Rattle.cg_verilog_expression.specs.Readings.{IsRead};
ghost use Rattle.cg_verilog_items.specs.ItemParts.{given_init, scalar};

use cg_list::Seq;
use cg_verilog_expression::reading::Reading;
use cg_verilog_expression::stop::Stop;
use cg_verilog_tokens::identifier::Identifier;
use cg_verilog_tokens::numeral::Numeral;
use std::alloc::Global;
use std::marker::Model;

/// The indices of a vector, as they are written.
#[derive(Drop)]
pub struct Range<'a> {
    /// That of the first bit.
    pub high: Numeral<'a>,

    /// That of the last bit.
    pub low: Numeral<'a>,
}

impl<'a> Model for Range<'a> {
    ghost use Rattle.cg_verilog_text.specs.Items.{Range as RangeSeen};

    ghost Value = { RangeSeen };

    ghost view = { λ r. record { high = r.high; low = r.low } };
}

/// A declared register, and its init where it has one here.
#[derive(Drop)]
pub struct Declared<'a> {
    /// The net that it shows.
    pub net: Identifier<'a>,

    /// Its init.
    pub init: Option<bool>,
}

impl<'a> Model for Declared<'a> {
    ghost use Rattle.cg_verilog_text.specs.Items.{Declared as DeclaredSeen};

    ghost Value = { DeclaredSeen };

    ghost view = { λ d. record { net = d.net; init = d.init } };
}

/// Reads the indices of a vector in brackets, which may be left out.
pub(crate) fn read_range<'a>(reading: &mut Reading<'a>) -> Result<Option<Range<'a>>, Stop>
    ensures end { reading.new.1 ≡ reading.old.1 }
    ensures left { IsRead reading.old.1 (range reading.old.0) reading.new.0 result }
{
    if !reading.is_mark(b'[') {
        return Ok(None);
    }
    reading.pass();
    let range = read_whole_range(reading)?;
    Ok(Some(range))
}

/// Reads the indices of a vector and the `]`.
fn read_whole_range<'a>(reading: &mut Reading<'a>) -> Result<Range<'a>, Stop>
    ensures end { reading.new.1 ≡ reading.old.1 }
    ensures left { IsRead reading.old.1 (whole_range reading.old.0) reading.new.0 result }
{
    let high = read_first_numeral(reading)?;
    let low = reading.closed_numeral()?;
    Ok(Range { high, low })
}

/// Reads a number and the `:` behind it.
fn read_first_numeral<'a>(reading: &mut Reading<'a>) -> Result<Numeral<'a>, Stop>
    ensures end { reading.new.1 ≡ reading.old.1 }
    ensures left { IsRead reading.old.1 (ended_by 58 (pass is_numeral reading.old.0)) reading.new.0 result }
{
    let index = reading.numeral()?;
    reading.mark(b':')?;
    Ok(index)
}

/// Reads declared registers, which have these indices, and the `;`.
pub(crate) fn read_ended_registers<'a>(
    alloc: Global,
    reading: &mut Reading<'a>,
    indices: &Option<Range<'a>>,
) -> Result<Seq<Declared<'a>>, Stop>
    ensures end { reading.new.1 ≡ reading.old.1 }
    ensures left { IsRead reading.old.1 (ended (separated 44 (declared indices.now) reading.old.0)) reading.new.0 result }
{
    let registers = read_registers(alloc, reading, indices)?;
    reading.mark(b';')?;
    Ok(registers)
}

/// Reads one or more registers with a comma between each two.
fn read_registers<'a>(
    alloc: Global,
    reading: &mut Reading<'a>,
    indices: &Option<Range<'a>>,
) -> Result<Seq<Declared<'a>>, Stop>
    ensures end { reading.new.1 ≡ reading.old.1 }
    ensures left { IsRead reading.old.1 (separated 44 (declared indices.now) reading.old.0) reading.new.0 result }
{
    let mut registers = Seq::new(alloc);
    'registers: loop {
        match read_declared(reading, indices) {
            Err(stop) => return Err(stop),
            Ok(register) => registers.push(register)?,
        }
        if !reading.is_mark(b',') {
            return Ok(registers);
        }
        reading.pass();
    }
}

/// Reads a register: a vector has no init here.
fn read_declared<'a>(
    reading: &mut Reading<'a>,
    indices: &Option<Range<'a>>,
) -> Result<Declared<'a>, Stop>
    ensures end { reading.new.1 ≡ reading.old.1 }
    ensures left { IsRead reading.old.1 (declared indices.now reading.old.0) reading.new.0 result }
{
    match indices {
        None => read_scalar(reading),
        Some(_) => {
            let net = reading.name()?;
            Ok(Declared { net, init: None })
        }
    }
}

/// Reads a register that is no vector.
fn read_scalar<'a>(reading: &mut Reading<'a>) -> Result<Declared<'a>, Stop>
    ensures end { reading.new.1 ≡ reading.old.1 }
    ensures left { IsRead reading.old.1 (scalar reading.old.0) reading.new.0 result }
{
    let net = reading.name()?;
    if reading.is_mark(b'=') {
        reading.pass();
        return read_given_init(reading, net);
    }
    Ok(Declared { net, init: None })
}

/// Reads the init of a register.
fn read_given_init<'a>(reading: &mut Reading<'a>, net: Identifier<'a>) -> Result<Declared<'a>, Stop>
    ensures end { reading.new.1 ≡ reading.old.1 }
    ensures left { IsRead reading.old.1 (given_init net.entry reading.old.0) reading.new.0 result }
{
    let value = reading.bit()?;
    Ok(Declared {
        net,
        init: Some(value),
    })
}
