//! The line of a register.

ghost use Rattle.std.specs.Prelude.{◌≡◌, ◌++◌, ◌∷◌, ◌<◌, length, slice_index_or, OnOk};
ghost use Rattle.std.specs.Option.{option_copied};
ghost use Rattle.cg_plan_text.specs.Words.{register_word};
ghost use Rattle.cg_plan_text.specs.inner.Spaced.{spaced};
ghost use Rattle.cg_text.specs.Written.{line_text};
ghost use Rattle.cg_register_text.specs.Causes.{cause_of};
ghost use Rattle.cg_register_text.specs.Words.{IsToldOf, cause_words, clock_word, edges_words, hint_outcome, line_words, numbers_words};
ghost use Rattle.cg_register_text.specs.Words.{register_edges, stage_outcome, tried_of};
ghost use Rattle.cg_register_text.specs.inner.Finding.{AreTables};

use crate::cause::Cause;
use crate::finding::Tables;
use crate::outcome::{push_hint_end, push_stage_end};
use crate::rises::BothRises;
use crate::seen::seen_at;
use crate::told::Told;
use cg_machine::machine::Machine;
use cg_net::id::RegId;
use cg_netlist::netlist::Netlist;
use cg_plan_text::names::{push_count, push_register, push_word};
use std::alloc::AllocError;

/// Puts the line of a register with this cause behind a text.
#[tactic(auto, using(crate::proofs::LineLemmas::lines))]
pub(crate) fn push_line(
    text: &mut Vec<u8>,
    told: &Told<'_>,
    tables: &Tables,
    rises: Option<&BothRises>,
    reg: RegId,
    cause: Cause,
) -> Result<(), AllocError>
    requires told { IsToldOf told.now }
    requires tables { AreTables told.now tables.now }
    requires register { reg < length told.now.read.registers }
    requires cause { cause ≡ cause_of (tried_of told.now) reg }
    ensures { OnOk result (text.new.items ≡ text.old.items ++ line_text (line_words told.now (option_copied rises.entry) reg)) }
{
    text.extend_from_slice(b"register")?;
    push_name(text, &told.plan.machine, reg)?;
    push_word(text, b"clock")?;
    push_clock(text, told.written, reg)?;
    push_cause(text, told, tables, reg, cause)?;
    push_register_edges(text, rises, reg)?;
    text.extend_from_slice(b"\n")
}

/// Puts the name of a register behind a text and a space.
fn push_name(text: &mut Vec<u8>, machine: &Machine, reg: RegId) -> Result<(), AllocError>
    ensures { OnOk result (text.new.items ≡ text.old.items ++ 32 ∷ register_word machine.now reg) }
{
    text.push(b' ')?;
    push_register(text, machine, reg)
}

/// Puts the name of the clock net of a register behind a text and a space.
fn push_clock(text: &mut Vec<u8>, netlist: &Netlist, reg: RegId) -> Result<(), AllocError>
    requires { reg < length netlist.now.registers }
    ensures { OnOk result (text.new.items ≡ text.old.items ++ 32 ∷ clock_word netlist.now reg) }
{
    let _nets = netlist.nets();
    let clock = netlist.register(reg).clock;
    push_word(text, netlist.name(clock))
}

/// Puts the words of a cause behind a text, each behind a space.
#[tactic(auto, using(crate::proofs::LineLemmas::pieces))]
fn push_cause(
    text: &mut Vec<u8>,
    told: &Told<'_>,
    tables: &Tables,
    reg: RegId,
    cause: Cause,
) -> Result<(), AllocError>
    requires tables { AreTables told.now tables.now }
    requires register { reg < length told.now.read.registers }
    ensures { OnOk result (text.new.items ≡ text.old.items ++ spaced (cause_words told.now reg cause)) }
{
    match cause {
        Cause::Gated => push_gated(text, told, tables, reg),
        Cause::Given => push_word(text, b"given"),
        Cause::Stage(number) => push_tried_stage(text, told, number),
        Cause::Hint(number) => push_tried_hint(text, told, number),
        Cause::Wide(width) => {
            push_word(text, b"wide")?;
            push_count(text, width)
        }
        Cause::Free => push_word(text, b"free"),
    }
}

/// Puts what gave a register its enable behind a text: the hint, and the stages.
#[tactic(auto, using(crate::proofs::LineLemmas::pieces))]
fn push_gated(
    text: &mut Vec<u8>,
    told: &Told<'_>,
    tables: &Tables,
    reg: RegId,
) -> Result<(), AllocError>
    requires tables { AreTables told.now tables.now }
    requires register { reg < length told.now.read.registers }
    ensures { OnOk result (text.new.items ≡ text.old.items ++ spaced (cause_words told.now reg Cause.Gated)) }
{
    let hints = seen_at(&tables.hints, reg);
    let stages = seen_at(&tables.stages, reg);
    push_word(text, b"gated")?;
    push_numbers(text, b"hint", hints.givers.as_slice())?;
    push_numbers(text, b"stage", stages.givers.as_slice())
}

/// Puts numbers behind a text and a word, where there are some.
#[tactic(auto, using(crate::proofs::LineLemmas::turns))]
fn push_numbers(text: &mut Vec<u8>, word: &[u8], numbers: &[u64]) -> Result<(), AllocError>
    ensures { OnOk result (text.new.items ≡ text.old.items ++ spaced (numbers_words word.now numbers.now)) }
{
    if numbers.is_empty() {
        return Ok(());
    }
    push_word(text, word)?;
    'numbers: for number in numbers {
        push_count(text, *number)?;
    }
    Ok(())
}

/// Puts the last stage that was tried for a register, and what came of it, behind a text.
#[tactic(auto, using(crate::proofs::LineLemmas::pieces))]
fn push_tried_stage(text: &mut Vec<u8>, told: &Told<'_>, number: u64) -> Result<(), AllocError>
    ensures { OnOk result (text.new.items ≡ text.old.items ++ spaced (cause_words told.now 0 (Cause.Stage number))) }
{
    push_word(text, b"tried")?;
    push_word(text, b"stage")?;
    push_count(text, number)?;
    push_stage_outcome(text, told, number)
}

/// Puts what came of the stage of a number behind a text, and nothing where there is no such stage.
fn push_stage_outcome(text: &mut Vec<u8>, told: &Told<'_>, number: u64) -> Result<(), AllocError>
    ensures { OnOk result (text.new.items ≡ text.old.items ++ spaced (stage_outcome told.now number)) }
{
    let stages = told.plan.stages.as_slice();
    match stages.get(number.saturating_sub(1) as usize) {
        Some(tried) => push_stage_end(text, &told.plan.machine, &tried.1),
        None => Ok(()),
    }
}

/// Puts the last hint that was tried for a register, and what came of it, behind a text.
#[tactic(auto, using(crate::proofs::LineLemmas::pieces))]
fn push_tried_hint(text: &mut Vec<u8>, told: &Told<'_>, number: u64) -> Result<(), AllocError>
    ensures { OnOk result (text.new.items ≡ text.old.items ++ spaced (cause_words told.now 0 (Cause.Hint number))) }
{
    push_word(text, b"tried")?;
    push_word(text, b"hint")?;
    push_count(text, number)?;
    push_hint_outcome(text, told, number)
}

/// Puts what came of the hint of a number behind a text, and nothing where there is no such hint.
fn push_hint_outcome(text: &mut Vec<u8>, told: &Told<'_>, number: u64) -> Result<(), AllocError>
    ensures { OnOk result (text.new.items ≡ text.old.items ++ spaced (hint_outcome told.now number)) }
{
    match told.outcomes.get(number.saturating_sub(1) as usize) {
        Some(outcome) => push_hint_end(text, &told.plan.machine, outcome),
        None => Ok(()),
    }
}

/// Puts the rises of a register behind a text, where a stimulus is played.
fn push_register_edges(
    text: &mut Vec<u8>,
    rises: Option<&BothRises>,
    reg: RegId,
) -> Result<(), AllocError>
    ensures { OnOk result (text.new.items ≡ text.old.items ++ spaced (register_edges (option_copied rises.entry) reg)) }
{
    let Some(rises) = rises else {
        return Ok(());
    };
    let place = reg.number() as usize;
    let original = number_at(rises.original.as_slice(), place);
    let written = number_at(rises.written.as_slice(), place);
    push_edges(text, original, written)
}

/// The number at a place, and 0 behind the last.
fn number_at(numbers: &[u32], place: usize) -> u64
    ensures { result ≡ slice_index_or numbers.now place 0 }
{
    match numbers.get(place) {
        Some(number) => u64::from(*number),
        None => 0,
    }
}

/// Puts edges in the netlist that was read and in the written one behind a text.
#[tactic(auto, using(crate::proofs::LineLemmas::pieces))]
pub(crate) fn push_edges(text: &mut Vec<u8>, original: u64, written: u64) -> Result<(), AllocError>
    ensures { OnOk result (text.new.items ≡ text.old.items ++ spaced (edges_words original written)) }
{
    push_word(text, b"edges")?;
    push_count(text, original)?;
    push_count(text, written)
}
