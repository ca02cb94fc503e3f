//! The text of the registers of a netlist that was gated.

ghost use Rattle.std.specs.Prelude.{◌≡◌, Option, Some, IfOk};
ghost use Rattle.std.specs.Option.{option_copied};
ghost use Rattle.cg_gate.specs.Gating.{TellsRegisters, gated_data};
ghost use Rattle.cg_plan.specs.Planning.{told};
ghost use Rattle.cg_register_text.specs.Rises.{FewRises, RisesWhere};
ghost use Rattle.cg_register_text.specs.Words.{IsToldOf, registers_text};
ghost use Rattle.cg_register_text.specs.declared.rises.BothRises.{BothRises};
ghost use Rattle.cg_stimulus.specs.Inputs.{IsFor, Rows};

use crate::planning::Gated;
use crate::request::{Request, asked_hints};
use cg_list::Seq;
use cg_netlist::netlist::Netlist;
use cg_register_text::rises::{BothRises, both_rises};
use cg_register_text::text::registers_text;
use cg_register_text::told::Told;
use cg_stimulus::played::one_played_history;
use cg_stimulus::stimulus::Stimulus;
use std::alloc::{AllocError, Global};

/// The text of the registers, where it is asked for: both netlists are then played once more on the stimulus, where there is one.
pub(crate) fn registers_asked(
    alloc: Global,
    request: &Request<'_>,
    read: &Netlist,
    gated: &Gated,
) -> Result<Option<Seq<u8>>, AllocError>
    requires told { IsToldOf (gated_data request.now read.now gated.now.netlist gated.now.outcomes (told gated.now.plan)) }
    requires read { (rows : Rows) → request.now.stimulus ≡ Some rows → IsFor read.now rows }
    requires written { (rows : Rows) → request.now.stimulus ≡ Some rows → IsFor gated.now.netlist rows }
    ensures { IfOk result (TellsRegisters request.now
        (gated_data request.now read.now gated.now.netlist gated.now.outcomes (told gated.now.plan))) }
{
    if !request.registers {
        have_rises(read, &gated.netlist, request.stimulus);
        return Ok(None);
    }
    let rises = both_rises(alloc, read, &gated.netlist, request.stimulus)?;
    let text = text_of(alloc, request, read, gated, rises.as_ref())?;
    Ok(Some(text))
}

/// The text of the registers.
fn text_of(
    alloc: Global,
    request: &Request<'_>,
    read: &Netlist,
    gated: &Gated,
    rises: Option<&BothRises>,
) -> Result<Seq<u8>, AllocError>
    requires told { IsToldOf (gated_data request.now read.now gated.now.netlist gated.now.outcomes (told gated.now.plan)) }
    requires rises { FewRises (option_copied rises) }
    ensures { IfOk result (λ text. text ≡ registers_text
        (gated_data request.now read.now gated.now.netlist gated.now.outcomes (told gated.now.plan)) (option_copied rises.entry)) }
{
    let told = Told {
        read,
        written: &gated.netlist,
        width: request.settings.width,
        hints: asked_hints(request.hints),
        outcomes: gated.outcomes.as_slice(),
        plan: &gated.plan,
    };
    Ok(Seq::from_vec(registers_text(alloc, &told, rises)?))
}

/// The registers of both netlists rise somehow where a stimulus is played, whether that is told or not.
///
/// The call does nothing; callers use what it ensures.
fn have_rises(read: &Netlist, written: &Netlist, stimulus: Option<&Stimulus>)
    requires read { (rows : Rows) → option_copied stimulus ≡ Some rows → IsFor read.now rows }
    requires written { (rows : Rows) → option_copied stimulus ≡ Some rows → IsFor written.now rows }
    ensures { (rises : Option BothRises) × RisesWhere (option_copied stimulus.entry) read.now written.now rises }
{
    if let Some(stimulus) = stimulus {
        one_played_history(read, stimulus);
        one_played_history(written, stimulus);
    }
}
