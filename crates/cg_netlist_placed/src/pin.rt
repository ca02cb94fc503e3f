//! The pins of a placed cell that a text names.

use std::marker::Model;

/// The name of a pin, and the net at it, if the text gives it one.
#[derive(Debug, Drop)]
pub struct PinWord<'a> {
    /// The name of the pin.
    pub pin: &'a [u8],

    /// The name of the net.
    pub net: Option<&'a [u8]>,
}

impl<'a> Model for PinWord<'a> {
    ghost use Rattle.std.specs.Option.{option_copied};
    ghost use Rattle.cg_netlist_placed.specs.PinNets.{PinNet};

    ghost Value = { PinNet };

    ghost view = { λ w. record { pin = w.pin.now; net = option_copied w.net } };
}
