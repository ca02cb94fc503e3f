//! The line of a stage.

ghost use Rattle.std.specs.Prelude.{◌≡◌, ◌++◌, ◌∷◌, codes, decimal, length, map, OnOk};
ghost use Rattle.cg_plan_text.specs.Words.{kind_word, literal_word, register_word, stage_words};
ghost use Rattle.cg_plan_text.specs.inner.Spaced.{spaced};
ghost use Rattle.cg_text.specs.Written.{line_text};

use crate::names::{push_count, push_literal, push_register, push_word};
use crate::outcome::push_outcome;
use cg_machine::machine::Machine;
use cg_machine::stage::{NetLit, Stage, StageKind};
use cg_net::id::RegId;
use cg_plan_laws::outcome::Outcome;
use std::alloc::AllocError;

/// Puts the line of a stage of this number behind a text.
#[tactic(auto, using(crate::proofs::TextLemmas::lines))]
pub fn push_stage(
    text: &mut Vec<u8>,
    machine: &Machine,
    number: u64,
    tried: &(Stage, Outcome),
) -> Result<(), AllocError>
    ensures { OnOk result (text.new.items ≡ text.old.items ++ line_text (stage_words machine.now number tried.now)) }
{
    let stage = &tried.0;
    text.extend_from_slice(b"stage")?;
    push_count(text, number)?;
    push_word(text, kind_word(stage.kind))?;
    push_registers(text, machine, stage.regs.as_slice())?;
    push_enables(text, machine, stage.enable.as_slice())?;
    push_outcome(text, machine, &tried.1)?;
    text.extend_from_slice(b"\n")
}

/// Puts `regs`, their number and their names behind a text.
#[tactic(auto, using(crate::proofs::TextLemmas::turns))]
pub fn push_registers(
    text: &mut Vec<u8>,
    machine: &Machine,
    regs: &[RegId],
) -> Result<(), AllocError>
    ensures { OnOk result (text.new.items ≡ text.old.items ++ spaced (codes "regs" ∷ decimal (length regs.now) ∷ map (register_word machine.now) regs.now)) }
{
    push_word(text, b"regs")?;
    push_count(text, regs.len() as u64)?;
    'regs: for reg in regs {
        push_one(text, machine, *reg)?;
    }
    Ok(())
}

fn push_one(text: &mut Vec<u8>, machine: &Machine, reg: RegId) -> Result<(), AllocError>
    ensures { OnOk result (text.new.items ≡ text.old.items ++ 32 ∷ register_word machine.now reg) }
{
    text.push(b' ')?;
    push_register(text, machine, reg)
}

/// Puts `enable`, the number of the literals and their names behind a text.
#[tactic(auto, using(crate::proofs::TextLemmas::turns))]
fn push_enables(text: &mut Vec<u8>, machine: &Machine, enable: &[NetLit]) -> Result<(), AllocError>
    ensures { OnOk result
        (text.new.items ≡ text.old.items ++ spaced (codes "enable" ∷ decimal (length enable.now) ∷ map (literal_word machine.now) enable.now)) }
{
    push_word(text, b"enable")?;
    push_count(text, enable.len() as u64)?;
    'literals: for literal in enable {
        push_enable(text, machine, *literal)?;
    }
    Ok(())
}

fn push_enable(text: &mut Vec<u8>, machine: &Machine, literal: NetLit) -> Result<(), AllocError>
    ensures { OnOk result (text.new.items ≡ text.old.items ++ 32 ∷ literal_word machine.now literal) }
{
    text.push(b' ')?;
    push_literal(text, machine, literal)
}

fn kind_word(kind: StageKind) -> &'static [u8]
    ensures { result.now ≡ kind_word kind }
{
    match kind {
        StageKind::Hold => b"hold",
        StageKind::Stable => b"stable",
        StageKind::Unseen => b"unseen",
    }
}
