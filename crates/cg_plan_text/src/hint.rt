//! The lines of hints, and the words of their claims and of what comes of them.

ghost use Rattle.std.specs.Prelude.{◌≡◌, ◌++◌, length, OnOk};
ghost use Rattle.cg_plan_text.specs.HintWords.{hint_claim_words, hint_outcome_words, hint_words, hints_from};
ghost use Rattle.cg_plan_text.specs.inner.Spaced.{spaced};
ghost use Rattle.cg_text.specs.Written.{line_text, text_of};

use crate::claim::{push_leaves, push_of};
use crate::names::{push_count, push_word};
use crate::outcome::cell_word;
use crate::stage::push_registers;
use cg_hint_laws::hint::Hint;
use cg_hint_laws::outcome::{HintClaim, HintOutcome};
use cg_machine::machine::Machine;
use std::alloc::AllocError;

/// Puts the lines of hints behind a text, numbered from 1.
#[tactic(auto, using(crate::proofs::TextLemmas::turns))]
pub fn push_hints(
    text: &mut Vec<u8>,
    machine: &Machine,
    hints: &[Hint],
    outcomes: &[HintOutcome],
) -> Result<(), AllocError>
    requires { length hints.now ≡ length outcomes.now }
    ensures { OnOk result (text.new.items ≡ text.old.items ++ text_of (hints_from machine.now 1 hints.now outcomes.now)) }
{
    'hints: for place in 0..hints.len() {
        push_hint(
            text,
            machine,
            place as u64 + 1,
            &hints[place],
            &outcomes[place],
        )?;
    }
    Ok(())
}

/// Puts the line of a hint of this number behind a text.
#[tactic(auto, using(crate::proofs::TextLemmas::lines))]
fn push_hint(
    text: &mut Vec<u8>,
    machine: &Machine,
    number: u64,
    hint: &Hint,
    outcome: &HintOutcome,
) -> Result<(), AllocError>
    ensures { OnOk result (text.new.items ≡ text.old.items ++ line_text (hint_words machine.now number hint.now outcome.now)) }
{
    text.extend_from_slice(b"hint")?;
    push_count(text, number)?;
    push_registers(text, machine, hint.regs.as_slice())?;
    push_word(text, b"after")?;
    push_count(text, u64::from(hint.after))?;
    push_hint_outcome(text, machine, outcome)?;
    text.extend_from_slice(b"\n")
}

/// Puts the words of what comes of a hint behind a text, each behind a space.
#[tactic(auto, using(crate::proofs::TextLemmas::pieces))]
pub fn push_hint_outcome(
    text: &mut Vec<u8>,
    machine: &Machine,
    outcome: &HintOutcome,
) -> Result<(), AllocError>
    ensures { OnOk result (text.new.items ≡ text.old.items ++ spaced (hint_outcome_words machine.now outcome.now)) }
{
    match outcome {
        HintOutcome::Inserted => push_word(text, b"inserted"),
        HintOutcome::Taken(reg) => push_of(text, b"taken", machine, *reg),
        HintOutcome::NoCell(kind) => {
            push_word(text, b"nocell")?;
            push_word(text, cell_word(*kind))
        }
        HintOutcome::Wide(claim, width) => {
            push_word(text, b"wide")?;
            push_hint_claim(text, machine, *claim)?;
            push_count(text, u64::from(*width))
        }
        HintOutcome::NeverIdle => push_word(text, b"neveridle"),
        HintOutcome::Refuted(claim, bits) => {
            push_word(text, b"refuted")?;
            push_hint_claim(text, machine, *claim)?;
            push_leaves(text, machine, bits.as_slice())
        }
    }
}

/// Puts the words of a claim of a hint behind a text, each behind a space.
pub fn push_hint_claim(
    text: &mut Vec<u8>,
    machine: &Machine,
    claim: HintClaim,
) -> Result<(), AllocError>
    ensures { OnOk result (text.new.items ≡ text.old.items ++ spaced (hint_claim_words machine.now claim)) }
{
    match claim {
        HintClaim::Idle => push_word(text, b"idle"),
        HintClaim::Hold(reg) => push_of(text, b"hold", machine, reg),
    }
}
