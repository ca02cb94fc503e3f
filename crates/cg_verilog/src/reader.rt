//! The netlist that a text says.

ghost use Rattle.std.specs.Prelude.{◌≡◌, None, true, IfErr, IfOk, MatchResult};
ghost use Rattle.cg_netlist.specs.Circuit.{Circuit};
ghost use Rattle.cg_netlist_parts.specs.Writable.{IsPlaceable};
ghost use Rattle.cg_verilog_text.specs.Items.{items};
ghost use Rattle.cg_verilog_text.specs.VerilogText.{VerilogText};
ghost use Rattle.cg_verilog_text.specs.declared.fault.VerilogFault.TheVariants.{NoMemory};
ghost use Rattle.cg_verilog.specs.Ending.{bad_of, builder_of, clocked, closed, outcome};
ghost use Rattle.cg_verilog.specs.Reads.{FinishesAs, IsBuilt, IsFirstOrNoMemory, IsNamedClock, IsReadFrom, IsTold, ItemsTold, bad_or, unfinished};
ghost use Rattle.cg_verilog.specs.Summary.{ending};
ghost use Rattle.cg_verilog.specs.Tellings.{Becomes, IsSound, summed};

use crate::fault::at;
use crate::telling::Telling;
use cg_blif::BlifOptions;
use cg_cell::library::Library;
use cg_limit::Limit;
use cg_netlist::fault::AddFault;
use cg_netlist::netlist::Netlist;
use cg_netlist_builder::builder::Builder;
use cg_netlist_parts::fault::NetFault;
use cg_verilog_expression::reading::Reading;
use cg_verilog_expression::stop::Stop;
use cg_verilog_items::item::read_item;
use cg_verilog_items::names::read_header;
use cg_verilog_text::fault::{ItemFault, VerilogFault};
use cg_verilog_tokens::tokens::Tokens;
use std::alloc::Global;

/// Reads a text with the cells of a library. One pass over the text. Memory is as the text is long and as the names of the netlist's nets
/// are together: each bit of a vector has a name with all digits of its index. Time is so too, and as bits that are declared again.
pub fn read_verilog(
    alloc: Global,
    text: &[u8],
    library: &Library,
    options: &BlifOptions,
) -> Result<Netlist, VerilogFault>
    // The netlist is the one that the text says with the library, and with the clock of the options.
    ensures found { IfOk result (λ netlist. VerilogText text.now library.now options.now.clock netlist) }

    // Each netlist that the text says is answered, unless memory is wanting.
    ensures only { (netlist : Circuit) → VerilogText text.now library.now options.now.clock netlist
        → MatchResult result (λ found. found ≡ netlist) (λ fault. fault ≡ NoMemory) }

    // The fault is the first that the text has, or memory is wanting.
    ensures first { IfErr result (IsFirstOrNoMemory text.now library.now options.now.clock) }

    // The netlist can be placed with the library.
    ensures placeable { IfOk result (IsPlaceable library.now) }
{
    let _ = library.len();
    read(alloc, text, library, options)
}

/// Reads a text with cells of a library.
fn read(
    alloc: Global,
    text: &[u8],
    library: &Library,
    options: &BlifOptions,
) -> Result<Netlist, VerilogFault>
    ensures { IsReadFrom text.now library.now options.now.clock result }
{
    let builder = build(alloc, text, library, options)?;
    finish(builder)
}

/// The builder that a text makes.
fn build(
    alloc: Global,
    text: &[u8],
    library: &Library,
    options: &BlifOptions,
) -> Result<Builder, VerilogFault>
    ensures built { IsBuilt (builder_of library.now options.now.clock text.now) result }
    ensures named { IfOk result (λ _. IsNamedClock options.now.clock) }
{
    let telling = tell(alloc, text, library)?;
    let builder = built(telling)?;
    clocked(builder, options)
}

/// What the items of a text tell.
fn tell(alloc: Global, text: &[u8], library: &Library) -> Result<Telling, VerilogFault>
    ensures { IsTold library.now text.now result }
{
    let mut reading = Reading::new(Tokens::new(text));
    match read_header(alloc, &mut reading) {
        Err(Stop::NoMemory) => Err(VerilogFault::NoMemory),
        Err(Stop::At(line)) => Err(VerilogFault::BadText(line)),
        Ok(model) => {
            let mut telling = Telling::new(alloc, &model)?;
            tell_all(alloc, library, &mut reading, &mut telling)?;
            Ok(telling)
        }
    }
}

/// Tells what stands behind the head of a text.
fn tell_all(
    alloc: Global,
    library: &Library,
    reading: &mut Reading<'_>,
    telling: &mut Telling,
) -> Result<(), VerilogFault>
    requires { IsSound telling.old }
    ensures { Becomes telling.new (closed reading.old.1 (ending library.now (summed telling.old) (items reading.old.0))) result }
{
    let stuck = tell_items(alloc, library, reading, telling)?;
    if let Some(line) = bad_line(reading, telling, stuck) {
        telling.put_fault(line, ItemFault::BadText);
    }
    Ok(())
}

/// Tells items one after another, up to `endmodule` or up to the line of a token that no item allows.
fn tell_items(
    alloc: Global,
    library: &Library,
    reading: &mut Reading<'_>,
    telling: &mut Telling,
) -> Result<Option<u64>, VerilogFault>
    requires { IsSound telling.old }
    ensures end { reading.new.1 ≡ reading.old.1 }
    ensures told { ItemsTold (ending library.now (summed telling.old) (items reading.old.0)) telling.new reading.new.0 reading.old.1 result }
{
    'items: loop {
        if reading.is_word(b"endmodule") {
            return Ok(None);
        }
        let line = reading.line();
        match read_item(alloc, reading) {
            Err(Stop::NoMemory) => return Err(VerilogFault::NoMemory),
            Err(Stop::At(line)) => return Ok(Some(line)),
            Ok(item) => telling.put(alloc, library, line, item)?,
        }
    }
}

/// The line of the bad token of a text whose items were told: the one at which they stopped, or else that of `endmodule` where the
/// inits are not of registers, or of what stands behind it.
fn bad_line(reading: &mut Reading<'_>, telling: &Telling, stuck: Option<u64>) -> Option<u64>
    ensures { result ≡ bad_or stuck (bad_of reading.old.1 (record { summary = summed telling.now; whole = true; left = reading.old.0 })) }
{
    if stuck.is_some() {
        return stuck;
    }
    if !telling.inits.are_of(&telling.updated) {
        return Some(reading.line());
    }
    reading.pass();
    if reading.is_over() {
        return None;
    }
    Some(reading.line())
}

/// The builder of what was told, its registers with their inits, or the first fault.
fn built(telling: Telling) -> Result<Builder, VerilogFault>
    requires { IsSound telling }
    ensures { IsBuilt (outcome (summed telling)) result }
{
    let Telling {
        builder,
        over,
        first,
        inits,
        updated: _,
        maker: _,
    } = telling;
    if let Some(fault) = first {
        return Err(at(fault));
    }
    if over {
        return Err(VerilogFault::Limit(Limit::Nets));
    }
    let mut builder = builder;
    builder.give_inits(inits.nets(), inits.values());
    Ok(builder)
}

/// A builder that was told the clock of the options.
fn clocked(builder: Builder, options: &BlifOptions) -> Result<Builder, VerilogFault>
    requires { builder.refused ≡ None }
    ensures built { IsBuilt (clocked options.now.clock builder) result }
    ensures named { IfOk result (λ _. IsNamedClock options.now.clock) }
{
    let mut builder = builder;
    match &options.clock {
        None => Ok(builder),
        Some(clock) => match builder.clock(clock.bytes()) {
            Ok(()) => Ok(builder),
            Err(AddFault::Limit(limit)) => Err(VerilogFault::Limit(limit)),
            Err(AddFault::NoMemory) => Err(VerilogFault::NoMemory),
        },
    }
}

/// The netlist of the parts that a builder was told.
fn finish(builder: Builder) -> Result<Netlist, VerilogFault>
    requires { builder.refused ≡ None }
    ensures { FinishesAs builder result }
{
    match builder.finish() {
        Ok(netlist) => Ok(netlist),
        Err(fault) => Err(unfinished(fault)),
    }
}

/// The fault of a text whose parts have this one.
fn unfinished(fault: NetFault) -> VerilogFault
    ensures { result ≡ unfinished fault }
{
    match fault {
        NetFault::TwoDrivers(net) => VerilogFault::Net(NetFault::TwoDrivers(net)),
        NetFault::NoDriver(net) => VerilogFault::Net(NetFault::NoDriver(net)),
        NetFault::Cycle(net) => VerilogFault::Net(NetFault::Cycle(net)),
        NetFault::ClockFault(net) => VerilogFault::Net(NetFault::ClockFault(net)),
        NetFault::NoClock => VerilogFault::Net(NetFault::NoClock),
        NetFault::NoMemory => VerilogFault::NoMemory,
    }
}
