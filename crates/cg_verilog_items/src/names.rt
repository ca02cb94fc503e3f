//! Reading names with a comma between each two, and the head of a text.

ghost use Rattle.std.specs.Prelude.{◌≡◌, codes};
ghost use Rattle.cg_verilog_text.specs.Items.{ended, header, port_list, ports};
ghost use Rattle.cg_verilog_text.specs.Reading.{after, ended_by, name, separated, word};
ghost use Rattle.cg_verilog_expression.specs.Readings.{IsRead};

use cg_list::Seq;
use cg_verilog_expression::reading::Reading;
use cg_verilog_expression::stop::Stop;
use cg_verilog_tokens::identifier::Identifier;
use std::alloc::Global;

/// Reads one or more names with a comma between each two.
fn read_names<'a>(alloc: Global, reading: &mut Reading<'a>) -> Result<Seq<Identifier<'a>>, Stop>
    ensures end { reading.new.1 ≡ reading.old.1 }
    ensures left { IsRead reading.old.1 (separated 44 name reading.old.0) reading.new.0 result }
{
    let mut names = Seq::new(alloc);
    'names: loop {
        match reading.name() {
            Err(stop) => return Err(stop),
            Ok(name) => names.push(name)?,
        }
        if !reading.is_mark(b',') {
            return Ok(names);
        }
        reading.pass();
    }
}

/// Reads names and the `;`.
pub(crate) fn read_ended_names<'a>(
    alloc: Global,
    reading: &mut Reading<'a>,
) -> Result<Seq<Identifier<'a>>, Stop>
    ensures end { reading.new.1 ≡ reading.old.1 }
    ensures left { IsRead reading.old.1 (ended (separated 44 name reading.old.0)) reading.new.0 result }
{
    let names = read_names(alloc, reading)?;
    reading.mark(b';')?;
    Ok(names)
}

/// Reads the head of a text: the module with its ports, which are not kept.
pub fn read_header<'a>(alloc: Global, reading: &mut Reading<'a>) -> Result<Identifier<'a>, Stop>
    ensures end { reading.new.1 ≡ reading.old.1 }
    ensures left { IsRead reading.old.1 (header reading.old.0) reading.new.0 result }
{
    let model = read_module_name(reading)?;
    let _ports = read_ended_ports(alloc, reading)?;
    Ok(model)
}

/// Reads the word `module` and the name of the module.
fn read_module_name<'a>(reading: &mut Reading<'a>) -> Result<Identifier<'a>, Stop>
    ensures end { reading.new.1 ≡ reading.old.1 }
    ensures left { IsRead reading.old.1 (after (word (codes "module") reading.old.0) (λ _. name)) reading.new.0 result }
{
    reading.word(b"module")?;
    reading.name()
}

/// Reads a port list and the `;`.
fn read_ended_ports<'a>(
    alloc: Global,
    reading: &mut Reading<'a>,
) -> Result<Seq<Identifier<'a>>, Stop>
    ensures end { reading.new.1 ≡ reading.old.1 }
    ensures left { IsRead reading.old.1 (ended (port_list reading.old.0)) reading.new.0 result }
{
    let ports = read_port_list(alloc, reading)?;
    reading.mark(b';')?;
    Ok(ports)
}

/// Reads a port list, which may be left out.
fn read_port_list<'a>(alloc: Global, reading: &mut Reading<'a>) -> Result<Seq<Identifier<'a>>, Stop>
    ensures end { reading.new.1 ≡ reading.old.1 }
    ensures left { IsRead reading.old.1 (port_list reading.old.0) reading.new.0 result }
{
    if !reading.is_mark(b'(') {
        return Ok(Seq::new(alloc));
    }
    reading.pass();
    read_closed_ports(alloc, reading)
}

/// Reads the ports in parentheses, and the `)`.
fn read_closed_ports<'a>(
    alloc: Global,
    reading: &mut Reading<'a>,
) -> Result<Seq<Identifier<'a>>, Stop>
    ensures end { reading.new.1 ≡ reading.old.1 }
    ensures left { IsRead reading.old.1 (ended_by 41 (ports reading.old.0)) reading.new.0 result }
{
    let ports = read_ports(alloc, reading)?;
    reading.mark(b')')?;
    Ok(ports)
}

/// Reads the names of ports, of which there may be none.
fn read_ports<'a>(alloc: Global, reading: &mut Reading<'a>) -> Result<Seq<Identifier<'a>>, Stop>
    ensures end { reading.new.1 ≡ reading.old.1 }
    ensures left { IsRead reading.old.1 (ports reading.old.0) reading.new.0 result }
{
    if reading.is_mark(b')') {
        return Ok(Seq::new(alloc));
    }
    read_names(alloc, reading)
}
