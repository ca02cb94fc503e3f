//! Stages: registers that are to get one enable, and what it is joined from.

ghost use Rattle.std.specs.Prelude.{ℕ, Bool};

use cg_list::Seq;
use cg_net::id::{NetId, RegId};
use std::marker::Model;

/// A literal: a net, plain or inverted. A contract sees the pair of both.
#[derive(Clone, Copy)]
pub struct NetLit {
    /// The net.
    pub net: NetId,

    /// Whether the literal is the inverse of the net.
    pub inverted: bool,
}

impl Model for NetLit {
    ghost Value = { ℕ × Bool };

    ghost view = { λ l. (l.net, l.inverted) };

    ghost inverse = { λ p. record { net = p.0; inverted = p.1 } };
}

/// Why the registers of a stage need no clock where its joined enable is 0.
#[derive(Clone, Copy)]
pub enum StageKind {
    /// They hold their bits in that cycle.
    Hold,

    /// They hold their bits in the cycle after.
    Stable,

    /// Nothing shows their bits in the cycle after.
    Unseen,
}

/// Registers that may get one enable.
#[derive(Drop)]
pub struct Stage {
    /// Why they may.
    pub kind: StageKind,

    /// The literals that are joined by or.
    pub enable: Seq<NetLit>,

    /// The registers, in their order.
    pub regs: Seq<RegId>,

    /// The enable that all the registers have before.
    pub own: Option<NetId>,

    /// The registers that the claims of an `Unseen` stage let take their next bits, in their order.
    pub guards: Seq<RegId>,
}

/// A stage that was tried, and whether it was inserted.
#[derive(Drop)]
pub struct Earlier {
    /// The stage.
    pub stage: Stage,

    /// Whether its registers got the enable.
    pub inserted: bool,
}
