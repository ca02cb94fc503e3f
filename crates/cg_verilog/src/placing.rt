//! A placed cell, told to a builder.

ghost use Rattle.std.specs.Prelude.{◌≡◌, None, IfOk};
ghost use Rattle.cg_netlist_parts.specs.Writable.{cell_named};
ghost use Rattle.cg_netlist_placed.specs.Placed.{placed_by};
ghost use Rattle.cg_verilog_text.specs.Meaning.{placed_parts};
ghost use Rattle.cg_verilog.specs.Hearing.{HearsItem, IsPlacedAs, heard_placed};

use crate::refusal::{Refusal, heard};
use cg_cell::library::Library;
use cg_netlist_builder::builder::Builder;
use cg_netlist_placed::adding::{add_placed, usable_cell};
use cg_netlist_placed::fault::Refusal as PlacedRefusal;
use cg_netlist_placed::pin::PinWord;
use cg_verilog_items::placed::Pin;
use cg_verilog_text::fault::ItemFault;
use cg_verilog_tokens::identifier::Identifier;
use std::alloc::{AllocError, Global};

/// Tells a builder a placed cell.
pub fn place(
    alloc: Global,
    library: &Library,
    builder: &mut Builder,
    cell: &Identifier<'_>,
    pins: &[Pin<'_>],
) -> Result<(), Refusal>
    ensures told { builder.old.refused ≡ None
        → HearsItem builder.old builder.new (placed_parts (placed_by (cell_named library.now cell.now) pins.now)) result }
    ensures placed { IsPlacedAs (placed_by (cell_named library.now cell.now) pins.now) result }
{
    let words = pin_words(alloc, pins)?;
    match usable_cell(library, cell.bytes()) {
        Ok(cell) => heard_placed(add_placed(alloc, builder, cell, &words)),
        Err(fault) => Err(Refusal::Item(ItemFault::Placed(fault))),
    }
}

/// The pins, with their nets lent.
fn pin_words<'b>(alloc: Global, pins: &'b [Pin<'_>]) -> Result<Vec<PinWord<'b>>, AllocError>
    ensures { IfOk result (λ words. words.items ≡ pins.now) }
{
    let mut words = Vec::with_capacity(alloc, pins.len())?;
    'pins: for pin in pins {
        words.push(pin_word(pin))?;
    }
    Ok(words)
}

/// A pin, with its net lent.
fn pin_word<'b>(pin: &'b Pin<'_>) -> PinWord<'b>
    ensures { result ≡ pin.now }
{
    let net = match &pin.net {
        None => None,
        Some(net) => Some(net.bytes()),
    };
    PinWord {
        pin: pin.pin.bytes(),
        net,
    }
}

/// What an item whose placed cell is answered so is.
fn heard_placed(answer: Result<(), PlacedRefusal>) -> Result<(), Refusal>
    ensures { result ≡ heard_placed answer }
{
    match answer {
        Ok(()) => Ok(()),
        Err(PlacedRefusal::Placed(fault)) => Err(Refusal::Item(ItemFault::Placed(fault))),
        Err(PlacedRefusal::Added(fault)) => heard(Err(fault)),
    }
}
