//! What is said of a plan, and what stands in a report beside its lines.

ghost use Rattle.std.specs.Prelude.{◌≡◌, ◌++◌, ◌∷◌, [], decimal, length, IfOk, OnOk};
ghost use Rattle.std.specs.List.{count_by};
ghost use Rattle.std.specs.Option.{option_copied};
ghost use Rattle.cg_hint_laws.specs.Trying.{is_inserted as is_inserted_hint};
ghost use Rattle.cg_plan_laws.specs.Plan.{is_inserted};
ghost use Rattle.cg_plan_text.specs.HintWords.{hints_line, hints_words};
ghost use Rattle.cg_plan_text.specs.Summary.{demo_text, difference_word, edges_line, edges_words};
ghost use Rattle.cg_plan_text.specs.Summary.{played_lines, report_text, said_text, summary_of, watched_line};
ghost use Rattle.cg_plan.specs.Planning.{told};
ghost use Rattle.cg_text.specs.Written.{line_text};

use crate::lines::{push_counts, push_lines};
use crate::names::{push_count, push_word};
use cg_hint_laws::hint::Hint;
use cg_hint_laws::outcome::HintOutcome;
use cg_list::Seq;
use cg_machine::stage::Stage;
use cg_plan::plan::Plan;
use cg_plan_laws::outcome::Outcome;
use cg_text::number::push_number;
use std::alloc::{AllocError, Global};

/// The edges of the original and of the written netlist over one stimulus.
#[derive(Clone, Copy, Debug, PartialEq, Eq)]
pub struct Edges {
    pub original: u64,
    pub written: u64,
}

/// What came of a stimulus: the edges where there is one, and the line of a watcher where one is asked for.
#[derive(Debug, Drop)]
pub struct Played {
    pub edges: Option<Edges>,
    pub watched: Option<Seq<u8>>,
}

/// What is said of hints, where they are asked for, and of the plan behind them.
#[tactic(auto, using(crate::proofs::TextLemmas::pieces))]
pub fn said_text(
    alloc: Global,
    plan: &Plan,
    hints: Option<&Seq<HintOutcome>>,
    played: &Played,
) -> Result<Vec<u8>, AllocError>
    ensures { IfOk result (λ text. text.items ≡ said_text (told plan.now) (option_copied hints.entry) played.now) }
{
    let mut text = Vec::new(alloc);
    push_hints_line(&mut text, hints)?;
    push_summary(&mut text, plan.stages.as_slice())?;
    push_played(&mut text, played)?;
    Ok(text)
}

/// The report on a plan and on the hints that were tried before it, with their outcomes; the written netlist has so many gating cells.
#[tactic(auto, using(crate::proofs::TextLemmas::pieces))]
pub fn report_text(
    alloc: Global,
    plan: &Plan,
    hints: &[Hint],
    outcomes: &[HintOutcome],
    gates: u32,
    played: &Played,
) -> Result<Vec<u8>, AllocError>
    requires { length hints.now ≡ length outcomes.now }
    ensures { IfOk result (λ text. text.items ≡ report_text (told plan.now) hints.now outcomes.now gates played.now) }
{
    let mut text = Vec::new(alloc);
    push_pair(&mut text, b"model", plan.machine.netlist().model())?;
    push_lines(&mut text, plan, hints, outcomes, gates)?;
    push_played(&mut text, played)?;
    Ok(text)
}

/// What is said of a generated pipeline of a size.
#[tactic(auto, using(crate::proofs::TextLemmas::pieces))]
pub fn demo_text(
    alloc: Global,
    size: u32,
    plan: &Plan,
    gates: u32,
    edges: Edges,
) -> Result<Vec<u8>, AllocError>
    ensures { IfOk result (λ text. text.items ≡ demo_text size (told plan.now) gates edges) }
{
    let mut text = Vec::new(alloc);
    push_line(&mut text, b"demo", u64::from(size))?;
    push_counts(&mut text, &plan.machine, gates)?;
    push_summary(&mut text, plan.stages.as_slice())?;
    push_edges(&mut text, edges)?;
    Ok(text)
}

/// Puts a line of a word and a number behind a text.
#[tactic(auto, using(crate::proofs::TextLemmas::lines))]
fn push_line(text: &mut Vec<u8>, word: &[u8], number: u64) -> Result<(), AllocError>
    ensures { OnOk result (text.new.items ≡ text.old.items ++ line_text (word.now ∷ decimal number ∷ [])) }
{
    text.extend_from_slice(word)?;
    push_count(text, number)?;
    text.extend_from_slice(b"\n")
}

/// Puts a line of two words behind a text.
#[tactic(auto, using(crate::proofs::TextLemmas::lines))]
fn push_pair(text: &mut Vec<u8>, word: &[u8], other: &[u8]) -> Result<(), AllocError>
    ensures { OnOk result (text.new.items ≡ text.old.items ++ line_text (word.now ∷ other.now ∷ [])) }
{
    text.extend_from_slice(word)?;
    push_word(text, other)?;
    text.extend_from_slice(b"\n")
}

/// Puts how many hints were tried and inserted behind a text, where hints are asked for.
fn push_hints_line(text: &mut Vec<u8>, hints: Option<&Seq<HintOutcome>>) -> Result<(), AllocError>
    ensures { OnOk result (text.new.items ≡ text.old.items ++ hints_line (option_copied hints.entry)) }
{
    match hints {
        None => Ok(()),
        Some(outcomes) => push_hints_summary(text, outcomes.as_slice()),
    }
}

/// Puts how many hints were tried and inserted behind a text.
#[tactic(auto, using(crate::proofs::TextLemmas::lines))]
fn push_hints_summary(text: &mut Vec<u8>, outcomes: &[HintOutcome]) -> Result<(), AllocError>
    ensures { OnOk result (text.new.items ≡ text.old.items ++ line_text (hints_words outcomes.now)) }
{
    text.extend_from_slice(b"hints")?;
    push_count(text, outcomes.len() as u64)?;
    push_word(text, b"inserted")?;
    push_count(text, inserted_hints(outcomes) as u64)?;
    text.extend_from_slice(b"\n")
}

/// How many hints were inserted.
#[tactic(auto, using(crate::proofs::TextLemmas::counts))]
fn inserted_hints(outcomes: &[HintOutcome]) -> usize
    ensures { result ≡ count_by is_inserted_hint outcomes.now }
{
    let mut count = 0;
    'outcomes: for outcome in outcomes {
        if outcome.is_inserted() {
            count += 1;
        }
    }
    count
}

/// Puts how many stages were tried and inserted behind a text.
#[tactic(auto, using(crate::proofs::TextLemmas::lines))]
fn push_summary(text: &mut Vec<u8>, stages: &[(Stage, Outcome)]) -> Result<(), AllocError>
    ensures { OnOk result (text.new.items ≡ text.old.items ++ line_text (summary_of stages.now)) }
{
    text.extend_from_slice(b"stages")?;
    push_count(text, stages.len() as u64)?;
    push_word(text, b"inserted")?;
    push_count(text, inserted(stages) as u64)?;
    text.extend_from_slice(b"\n")
}

/// How many stages were inserted.
#[tactic(auto, using(crate::proofs::TextLemmas::counts))]
fn inserted(stages: &[(Stage, Outcome)]) -> usize
    ensures { result ≡ count_by (λ tried. is_inserted tried.1) stages.now }
{
    let mut count = 0;
    'stages: for tried in stages {
        if tried.1.is_inserted() {
            count += 1;
        }
    }
    count
}

/// Puts the line of the edges behind a text.
#[tactic(auto, using(crate::proofs::TextLemmas::lines))]
fn push_edges(text: &mut Vec<u8>, edges: Edges) -> Result<(), AllocError>
    ensures { OnOk result (text.new.items ≡ text.old.items ++ line_text (edges_words edges)) }
{
    text.extend_from_slice(b"edges original")?;
    push_count(text, edges.original)?;
    push_word(text, b"written")?;
    push_count(text, edges.written)?;
    text.extend_from_slice(b" saved ")?;
    push_difference(text, edges.original, edges.written)?;
    text.extend_from_slice(b"\n")
}

/// Puts a number less another behind a text, with a `-` where that is negative.
fn push_difference(text: &mut Vec<u8>, a: u64, b: u64) -> Result<(), AllocError>
    ensures { OnOk result (text.new.items ≡ text.old.items ++ difference_word a b) }
{
    if b <= a {
        return push_number(text, a - b);
    }
    text.push(b'-')?;
    push_number(text, b - a)
}

/// Puts the lines of what was played behind a text.
#[tactic(auto, using(crate::proofs::TextLemmas::pieces))]
fn push_played(text: &mut Vec<u8>, played: &Played) -> Result<(), AllocError>
    ensures { OnOk result (text.new.items ≡ text.old.items ++ played_lines played.now) }
{
    push_edges_line(text, played.edges)?;
    push_watched(text, &played.watched)
}

fn push_edges_line(text: &mut Vec<u8>, edges: Option<Edges>) -> Result<(), AllocError>
    ensures { OnOk result (text.new.items ≡ text.old.items ++ edges_line edges) }
{
    match edges {
        None => Ok(()),
        Some(edges) => push_edges(text, edges),
    }
}

fn push_watched(text: &mut Vec<u8>, watched: &Option<Seq<u8>>) -> Result<(), AllocError>
    ensures { OnOk result (text.new.items ≡ text.old.items ++ watched_line watched.now) }
{
    match watched {
        None => Ok(()),
        Some(line) => {
            text.extend_from_slice(line.as_slice())?;
            text.extend_from_slice(b"\n")
        }
    }
}
