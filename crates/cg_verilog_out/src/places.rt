//! Lines of placed cells.

ghost use Rattle.std.specs.Prelude.{◌≡◌, ◌++◌, ◌∷◌, OnOk};
ghost use Rattle.cg_verilog_text.specs.Items.{Place};
ghost use Rattle.cg_verilog_text.specs.Written.{item_line, pin_text};
ghost use Rattle.cg_verilog_out.specs.Pieces.{more_pins, pins_text};

use crate::names::push_name;
use cg_netlist_placed::pin::PinWord;
use std::alloc::AllocError;

/// Appends a pin, and the net at it if it has one.
fn push_pin(out: &mut Vec<u8>, pin: &PinWord<'_>) -> Result<(), AllocError>
    ensures { OnOk result (out.new.items ≡ out.old.items ++ pin_text pin.now) }
{
    out.push(b'.')?;
    push_name(out, pin.pin)?;
    out.push(b'(')?;
    if let Some(net) = pin.net {
        push_name(out, net)?;
    }
    out.push(b')')?;
    Ok(())
}

/// Appends pins, each behind a comma.
#[tactic(auto, using(crate::proofs::PieceLemmas::pins))]
fn push_more_pins(out: &mut Vec<u8>, pins: &[PinWord<'_>]) -> Result<(), AllocError>
    ensures { OnOk result (out.new.items ≡ out.old.items ++ more_pins pins.now) }
{
    'pins: for pin in pins {
        out.extend_from_slice(b", ")?;
        push_pin(out, pin)?;
    }
    Ok(())
}

/// Appends a pin, and others with a comma between each two.
#[tactic(auto, using(crate::proofs::PieceLemmas::pins))]
fn push_first_pins(
    out: &mut Vec<u8>,
    first: &PinWord<'_>,
    more: &[PinWord<'_>],
) -> Result<(), AllocError>
    ensures { OnOk result (out.new.items ≡ out.old.items ++ pins_text (first.now ∷ more.now)) }
{
    push_pin(out, first)?;
    push_more_pins(out, more)
}

/// Appends pins with a comma between each two.
fn push_pins(out: &mut Vec<u8>, pins: &[PinWord<'_>]) -> Result<(), AllocError>
    ensures { OnOk result (out.new.items ≡ out.old.items ++ pins_text pins.now) }
{
    match pins.split_first() {
        None => Ok(()),
        Some((first, more)) => push_first_pins(out, first, more),
    }
}

/// Appends the line of a placed cell.
#[tactic(auto, using(crate::proofs::PieceLemmas::pins))]
pub(crate) fn push_placed(
    out: &mut Vec<u8>,
    cell: &[u8],
    label: &[u8],
    pins: &[PinWord<'_>],
) -> Result<(), AllocError>
    ensures { OnOk result (out.new.items ≡ out.old.items ++ item_line (Place cell.now label.now pins.now)) }
{
    out.extend_from_slice(b"  ")?;
    push_name(out, cell)?;
    push_name(out, label)?;
    out.push(b'(')?;
    push_pins(out, pins)?;
    out.extend_from_slice(b");\n")
}
