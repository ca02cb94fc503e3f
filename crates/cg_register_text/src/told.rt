//! A netlist that was gated, as far as its registers are told.

use cg_hint_laws::hint::Hint;
use cg_hint_laws::outcome::HintOutcome;
use cg_netlist::netlist::Netlist;
use cg_plan::plan::Plan;
use std::marker::Model;

/// A netlist that was gated, as far as its registers are told.
///
/// Clauses see a `GatedData`. The plan's machine stands in it in place of the machine with which the plan began, which the plan does not
/// keep: hold claims of a register that has no enable in the end are as wide on both.
#[derive(Drop)]
pub struct Told<'a> {
    /// The netlist that was read.
    pub read: &'a Netlist,

    /// The written netlist.
    pub written: &'a Netlist,

    /// How many leaves a claim may have.
    pub width: u32,

    /// The hints that were tried before the plan.
    pub hints: &'a [Hint],

    /// What came of each hint.
    pub outcomes: &'a [HintOutcome],

    /// The plan.
    pub plan: &'a Plan,
}

impl<'a> Model for Told<'a> {
    ghost use Rattle.std.specs.Coded.{codes};
    ghost use Rattle.cg_cell.specs.TermCode.{term_code};
    ghost use Rattle.cg_plan.specs.Planning.{told};
    ghost use Rattle.cg_register_text.specs.Words.{GatedData};

    ghost Value = { GatedData };

    ghost coded = { Prim.hlevel (codes, term_code) };

    ghost view = { λ t. record {
      read = t.read.now;
      written = t.written.now;
      began = t.plan.now.machine;
      width = t.width;
      hints = t.hints.now;
      outcomes = t.outcomes.now;
      plan = told t.plan.now;
    } };
}
