//! The lines of a plan.

ghost use Rattle.std.specs.Prelude.{◌≡◌, ◌++◌, ◌∷◌, [], decimal, length, IfOk, OnOk};
ghost use Rattle.cg_plan_text.specs.StageLines.{counts_words, plan_lines, stage_lines, stages_from, wide_words};
ghost use Rattle.cg_plan_text.specs.inner.Spaced.{spaced};
ghost use Rattle.cg_plan.specs.Planning.{told};
ghost use Rattle.cg_text.specs.Written.{line_text, text_of};

use crate::hint::push_hints;
use crate::names::{push_count, push_word};
use crate::stage::push_stage;
use cg_hint_laws::hint::Hint;
use cg_hint_laws::outcome::HintOutcome;
use cg_machine::machine::Machine;
use cg_machine::stage::Stage;
use cg_plan::plan::Plan;
use cg_plan_laws::outcome::Outcome;
use std::alloc::{AllocError, Global};

/// The lines of a plan, from what was counted to the last stage; the written netlist has so many gating cells.
#[tactic(auto, using(crate::proofs::TextLemmas::pieces))]
pub fn stage_lines(alloc: Global, plan: &Plan, gates: u32) -> Result<Vec<u8>, AllocError>
    ensures { IfOk result (λ text. text.items ≡ stage_lines (told plan.now) gates) }
{
    let mut text = Vec::new(alloc);
    push_lines(&mut text, plan, &[], &[], gates)?;
    Ok(text)
}

/// Puts the lines of a plan behind a text, and those of the hints that were tried before it behind the second.
#[tactic(auto, using(crate::proofs::TextLemmas::pieces))]
pub(crate) fn push_lines(
    text: &mut Vec<u8>,
    plan: &Plan,
    hints: &[Hint],
    outcomes: &[HintOutcome],
    gates: u32,
) -> Result<(), AllocError>
    requires { length hints.now ≡ length outcomes.now }
    ensures { OnOk result (text.new.items ≡ text.old.items ++ plan_lines (told plan.now) hints.now outcomes.now gates) }
{
    push_counts(text, &plan.machine, gates)?;
    push_wide(text, plan.wide)?;
    push_hints(text, &plan.machine, hints, outcomes)?;
    push_stages(text, &plan.machine, plan.stages.as_slice())
}

/// Puts the line of what was counted behind a text: the netlist's own registers, the delay registers, the added gates, and the
/// gating cells of the written netlist.
#[tactic(auto, using(crate::proofs::TextLemmas::lines))]
pub(crate) fn push_counts(
    text: &mut Vec<u8>,
    machine: &Machine,
    gates: u32,
) -> Result<(), AllocError>
    ensures { OnOk result (text.new.items ≡ text.old.items ++ line_text (counts_words machine.now gates)) }
{
    let own = machine.netlist().registers();
    text.extend_from_slice(b"registers")?;
    push_count(text, u64::from(own))?;
    push_entry(text, b"delays", machine.registers() - own)?;
    push_entry(text, b"cells", machine.gates())?;
    push_entry(text, b"gates", gates)?;
    text.extend_from_slice(b"\n")
}

/// Puts a word and a number behind a text.
#[tactic(auto, using(crate::proofs::TextLemmas::pieces))]
fn push_entry(text: &mut Vec<u8>, word: &[u8], number: u32) -> Result<(), AllocError>
    ensures { OnOk result (text.new.items ≡ text.old.items ++ spaced (word.now ∷ decimal number ∷ [])) }
{
    push_word(text, word)?;
    push_count(text, u64::from(number))
}

/// Puts the line of how many registers have hold claims that are too wide behind a text.
#[tactic(auto, using(crate::proofs::TextLemmas::lines))]
fn push_wide(text: &mut Vec<u8>, wide: u32) -> Result<(), AllocError>
    ensures { OnOk result (text.new.items ≡ text.old.items ++ line_text (wide_words wide)) }
{
    text.extend_from_slice(b"hold wide")?;
    push_count(text, u64::from(wide))?;
    text.extend_from_slice(b"\n")
}

/// Puts the lines of stages behind a text, numbered from 1.
#[tactic(auto, using(crate::proofs::TextLemmas::turns))]
fn push_stages(
    text: &mut Vec<u8>,
    machine: &Machine,
    stages: &[(Stage, Outcome)],
) -> Result<(), AllocError>
    ensures { OnOk result (text.new.items ≡ text.old.items ++ text_of (stages_from machine.now 1 stages.now)) }
{
    'stages: for (place, tried) in stages.iter().enumerate() {
        push_stage(text, machine, place as u64 + 1, tried)?;
    }
    Ok(())
}
