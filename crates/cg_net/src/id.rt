//! The numbers by which the parts of a netlist refer to each other.
//!
//! A number is the place of the part in its list, and means nothing without the lists that it is used with: those of a
//! netlist, or those of parts that are still told. They are 32 bits wide, so that the lists of a large netlist stay small.

ghost use Rattle.std.specs.Prelude.{◌≡◌, ◌<◌, ◌^◌};

use std::marker::Model;

/// The number of a net: its place in net order, where a netlist has it; while parts are told, the place at which its name
/// came.
#[derive(Clone, Copy, Debug, Default, PartialEq, Eq)]
pub struct NetId {
    number: u32,
}

impl Model for NetId {
    ghost use Rattle.std.specs.Prelude.{ℕ};

    ghost Value = { ℕ };

    ghost view = { λ id. id.number };

    ghost inverse = { λ n. record { number = n } };
}

impl NetId {
    /// The net of this number.
    pub fn new(number: u32) -> NetId
        ensures { result ≡ number }
    {
        NetId { number }
    }

    /// The number of the net.
    pub fn number(self) -> u32
        ensures number { result ≡ self }
        ensures small { result < 2 ^ 32 }
    {
        self.number
    }
}

/// The number of a logic cell.
#[derive(Clone, Copy, Debug, PartialEq, Eq)]
pub struct CellId {
    number: u32,
}

impl Model for CellId {
    ghost use Rattle.std.specs.Prelude.{ℕ};

    ghost Value = { ℕ };

    ghost view = { λ id. id.number };

    ghost inverse = { λ n. record { number = n } };
}

impl CellId {
    /// The logic cell of this number.
    pub fn new(number: u32) -> CellId
        ensures { result ≡ number }
    {
        CellId { number }
    }

    /// The number of the logic cell.
    pub fn number(self) -> u32
        ensures number { result ≡ self }
        ensures small { result < 2 ^ 32 }
    {
        self.number
    }
}

/// The number of a register.
#[derive(Clone, Copy, Debug, PartialEq, Eq)]
pub struct RegId {
    number: u32,
}

impl Model for RegId {
    ghost use Rattle.std.specs.Prelude.{ℕ};

    ghost Value = { ℕ };

    ghost view = { λ id. id.number };

    ghost inverse = { λ n. record { number = n } };
}

impl RegId {
    /// The register of this number.
    pub fn new(number: u32) -> RegId
        ensures { result ≡ number }
    {
        RegId { number }
    }

    /// The number of the register.
    pub fn number(self) -> u32
        ensures number { result ≡ self }
        ensures small { result < 2 ^ 32 }
    {
        self.number
    }
}

/// The number of a gating cell.
#[derive(Clone, Copy, Debug, PartialEq, Eq)]
pub struct GateClockId {
    number: u32,
}

impl Model for GateClockId {
    ghost use Rattle.std.specs.Prelude.{ℕ};

    ghost Value = { ℕ };

    ghost view = { λ id. id.number };

    ghost inverse = { λ n. record { number = n } };
}

impl GateClockId {
    /// The gating cell of this number.
    pub fn new(number: u32) -> GateClockId
        ensures { result ≡ number }
    {
        GateClockId { number }
    }

    /// The number of the gating cell.
    pub fn number(self) -> u32
        ensures number { result ≡ self }
        ensures small { result < 2 ^ 32 }
    {
        self.number
    }
}
