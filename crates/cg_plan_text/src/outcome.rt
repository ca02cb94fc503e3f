//! The words of what comes of a stage.

ghost use Rattle.std.specs.Prelude.{◌≡◌, ◌++◌, ◌∷◌, OnOk};
ghost use Rattle.cg_plan_text.specs.Words.{cell_word, outcome_words};
ghost use Rattle.cg_plan_text.specs.inner.Spaced.{spaced};

use crate::claim::{push_claim, push_leaves};
use crate::names::{push_count, push_word};
use cg_cell::fit::FitKind;
use cg_machine::machine::Machine;
use cg_plan_laws::outcome::Outcome;
use std::alloc::AllocError;

/// Puts the words of an outcome behind a text, each behind a space.
#[tactic(auto, using(crate::proofs::TextLemmas::pieces))]
pub fn push_outcome(
    text: &mut Vec<u8>,
    machine: &Machine,
    outcome: &Outcome,
) -> Result<(), AllocError>
    ensures { OnOk result (text.new.items ≡ text.old.items ++ spaced (outcome_words machine.now outcome.now)) }
{
    match outcome {
        Outcome::Inserted => push_word(text, b"inserted"),
        Outcome::Refuted(claim, bits) => {
            push_word(text, b"refuted")?;
            push_claim(text, machine, *claim)?;
            push_leaves(text, machine, bits.as_slice())
        }
        Outcome::Wide(claim, width) => {
            push_word(text, b"wide")?;
            push_claim(text, machine, *claim)?;
            push_count(text, u64::from(*width))
        }
        Outcome::NeverIdle => push_word(text, b"neveridle"),
        Outcome::Small(registers) => {
            push_word(text, b"small")?;
            push_count(text, u64::from(*registers))
        }
        Outcome::NoCell(kind) => {
            push_word(text, b"nocell")?;
            push_word(text, cell_word(*kind))
        }
    }
}

/// The word of a kind of cell.
pub fn cell_word(kind: FitKind) -> &'static [u8]
    ensures { result.now ≡ cell_word kind }
{
    match kind {
        FitKind::Gater => b"gater",
        FitKind::TestGater => b"testgater",
        FitKind::Inv => b"inv",
        FitKind::And2 => b"and2",
        FitKind::Or2 => b"or2",
    }
}
