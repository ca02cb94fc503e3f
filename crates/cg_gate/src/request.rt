//! What gating is asked for.

ghost use Rattle.std.specs.Prelude.{◌≡◌, [], unwrap_or};
ghost use Rattle.std.specs.Option.{option_copied};

use cg_cell::library::Library;
use cg_cell::name::Name;
use cg_hint_laws::hint::Hint;
use cg_list::Seq;
use cg_plan_laws::settings::Settings;
use cg_stimulus::stimulus::Stimulus;
use std::marker::Model;

/// What gating is asked for, beside the netlist. Clauses see a `RequestData`.
#[derive(Drop)]
pub struct Request<'a> {
    /// The cells.
    pub library: &'a Library,

    /// What bounds the plan, and whether a proof file is asked for.
    pub settings: &'a Settings,

    /// What the names of added nets begin with.
    pub prefix: &'a Name,

    /// The name of the test input, where there is to be one.
    pub test: Option<&'a Name>,

    /// The stimulus that is played on both netlists, where there is one.
    pub stimulus: Option<&'a Stimulus>,

    /// The hints, where they are asked for.
    pub hints: Option<&'a Seq<Hint>>,

    /// Whether a report is asked for.
    pub report: bool,

    /// Whether a Verilog text of the gated netlist is asked for.
    pub verilog: bool,

    /// Whether a text of the registers is asked for: why each is gated, or why it is not.
    pub registers: bool,
}

impl<'a> Model for Request<'a> {
    ghost use Rattle.std.specs.Coded.{codes};
    ghost use Rattle.std.specs.Option.{option_copied};
    ghost use Rattle.cg_cell.specs.TermCode.{term_code};
    ghost use Rattle.cg_gate.specs.Request.{RequestData};

    ghost Value = { RequestData };

    ghost coded = { Prim.hlevel (codes, term_code) };

    ghost view = { λ r. record {
      library = r.library.now;
      settings = r.settings.now;
      prefix = r.prefix.now;
      test = option_copied r.test;
      stimulus = option_copied r.stimulus;
      hints = option_copied r.hints;
      report = r.report;
      verilog = r.verilog;
      registers = r.registers;
    } };
}

/// The hints, none where none are asked for.
pub(crate) fn asked_hints<'a>(asked: Option<&'a Seq<Hint>>) -> &'a [Hint]
    ensures { result.now ≡ unwrap_or (option_copied asked.entry) [] }
{
    match asked {
        None => &[],
        Some(hints) => hints.as_slice(),
    }
}
