//! The LRAT text of a log.

ghost use Rattle.std.specs.Prelude.{◌≡◌, ◌∷◌, ◌++◌, Ok, IfOk, OnOk, MatchOption, codes};
ghost use Rattle.cg_limit.specs.Answers.{OrNoMemory};
ghost use Rattle.cg_text.specs.Written.{joined, line_text};
ghost use Rattle.cg_lrat.specs.declared.log.Log.{Log};
ghost use Rattle.cg_lrat.specs.declared.lrat.LratFault.TheVariants.{NoMemory};
ghost use Rattle.cg_lrat.specs.Bounds.{IsLog};
ghost use Rattle.cg_lrat.specs.LratText.{LratText, id_words, body_words, step_words, lrat_text, counted};
ghost use Rattle.cg_formula.specs.DimacsText.{clause_words};
ghost use Rattle.cg_lrat.specs.LratReading.{lits_at, ids_at, addition_of, deletion_of, step_of, lrat};
ghost use Rattle.cg_lrat.specs.Views.{body_shown, shown};

use crate::id::{IdToken, push_ids, read_id_token};
use crate::log::{Body, Log, Step};
use crate::step_list::{BodyView, StepList, StepView};
use cg_formula::{Clause, ClauseToken, LAYOUT, Lit, push_clause, read_clause_token};
use cg_list::Seq;
use cg_text::lines::{Line, Lines};
use cg_text::number::push_number;
use cg_text::words::Words;
use std::alloc::{AllocError, AllocFailed, Global};

/// The greatest variable that a log may name.
pub const GREATEST_VARIABLE: u32 = 2_147_483_647;

/// Why an LRAT text is refused.
#[derive(Clone, Copy, Debug, PartialEq, Eq)]
pub enum LratFault {
    /// The first line that is neither an addition nor a deletion.
    BadLine(u64),
    /// There was no memory for the log.
    NoMemory,
}

impl From<AllocError> for LratFault {
    ghost use Rattle.std.specs.Prelude.{◌≡◌};
    ghost use Rattle.cg_lrat.specs.declared.lrat.LratFault.TheVariants.{NoMemory};

    ghost from_gives = { λ _ e. e ≡ NoMemory };

    fn from(_: AllocError) -> Self {
        LratFault::NoMemory
    }
}

impl<T: Drop> From<AllocFailed<T>> for LratFault {
    ghost use Rattle.std.specs.Prelude.{◌≡◌};
    ghost use Rattle.cg_lrat.specs.declared.lrat.LratFault.TheVariants.{NoMemory};

    ghost from_gives = { λ _ e. e ≡ NoMemory };

    fn from(_: AllocFailed<T>) -> Self {
        LratFault::NoMemory
    }
}

/// The literals up to the zero that ends them. A fault is at this line.
fn read_lits(alloc: Global, words: &mut Words<'_>, line: u64) -> Result<Clause, LratFault>
    ensures { OrNoMemory NoMemory (λ clause. (clause.lits, words.new)) result (lits_at line words.old) }
{
    let mut lits = Vec::new(alloc);
    'literals: loop {
        let word = words.next_word().ok_or(LratFault::BadLine(line))?;
        match read_clause_token(word, GREATEST_VARIABLE) {
            ClauseToken::Literal(lit) => lits.push(lit)?,
            ClauseToken::End => break,
            ClauseToken::Other => return Err(LratFault::BadLine(line)),
        }
    }
    Ok(Clause {
        lits: Seq::from_vec(lits),
    })
}

/// The ids up to the zero that ends the line.
fn read_ids(alloc: Global, words: Words<'_>, line: u64) -> Result<Seq<u64>, LratFault>
    ensures { OrNoMemory NoMemory (λ ids. ids) result (ids_at line words.entry) }
{
    let mut words = words;
    let mut ids = Vec::new(alloc);
    'ids: loop {
        let word = words.next_word().ok_or(LratFault::BadLine(line))?;
        match read_id_token(word) {
            IdToken::Id(id) => ids.push(id)?,
            IdToken::End => break,
            IdToken::Other => return Err(LratFault::BadLine(line)),
        }
    }
    if words.is_empty() {
        Ok(Seq::from_vec(ids))
    } else {
        Err(LratFault::BadLine(line))
    }
}

/// The clause and the hints of an addition.
fn read_addition(alloc: Global, words: Words<'_>, line: u64) -> Result<Body, LratFault>
    ensures { OrNoMemory NoMemory (λ body. body) result (addition_of line words.entry) }
{
    let mut words = words;
    let clause = read_lits(alloc, &mut words, line)?;
    let hints = read_ids(alloc, words, line)?;
    Ok(Body::Add(clause, hints))
}

/// Whether the line goes on with a `d`, and what is behind it.
fn deleted<'a>(words: &Words<'a>) -> Option<Words<'a>>
    ensures { MatchOption result (deletion_of words.now ≡ None) (λ ids. deletion_of words.now ≡ Some ids) }
{
    let mut words = words.ahead();
    match words.next_word() {
        Some(word) if word == b"d".as_slice() => Some(words),
        _ => None,
    }
}

/// What a line says.
fn read_step(alloc: Global, line: Line<'_>) -> Result<Step, LratFault>
    ensures { OrNoMemory NoMemory (λ step. step) result (step_of line.entry) }
{
    let number = line.number;
    let mut words = line.words;
    let first = words.next_word().ok_or(LratFault::BadLine(number))?;
    let IdToken::Id(id) = read_id_token(first) else {
        return Err(LratFault::BadLine(number));
    };
    let body = match deleted(&words) {
        Some(ids) => Body::Delete(read_ids(alloc, ids, number)?),
        None => read_addition(alloc, words, number)?,
    };
    Ok(Step {
        line: number,
        id,
        body,
    })
}

/// The log, or its first bad line.
fn read_text(alloc: Global, text: &[u8]) -> Result<Log, LratFault>
    ensures { OrNoMemory NoMemory (λ log. log) result (lrat text.now) }
{
    let mut lines = Lines::new(text, LAYOUT);
    let mut steps = StepList::new(alloc);
    'lines: while let Ok(line) = lines.next_line() {
        let step = read_step(alloc, line)?;
        steps.push(&step)?;
    }
    Ok(Log { steps })
}

/// Reads the LRAT text of a log.
///
/// Lines that begin with `c` and lines without words are passed over. Each other line is a step: `ID LITERALS 0 HINTS 0`
/// adds a clause, and `ID d IDS 0` takes clauses away. Numbers are decimal digits without a leading zero, and a
/// literal may have a minus before them. Hints that are negative are refused.
pub fn read_lrat(alloc: Global, text: &[u8]) -> Result<Log, LratFault>
    ensures found { IfOk result (LratText text.now) }
    ensures only { (log : Log) → LratText text.now log → OrNoMemory NoMemory (λ read. read) result (Ok log) }
    ensures exact { OrNoMemory NoMemory (λ read. read) result (lrat text.now) }
{
    read_text(alloc, text)
}

/// Writes the LRAT text of a log: a line for each step.
///
/// A text knows its steps by its own lines, so what is read from it has the lines counted from 1, and is equal to the
/// log in all else. A log whose lines are counted so is read back as it is.
pub fn write_lrat(alloc: Global, log: &Log) -> Result<Vec<u8>, AllocError>
    requires { IsLog log.now }
    ensures written { IfOk result (λ text. text.items ≡ lrat_text log.now) }
    ensures again { IfOk result (λ text. LratText text.items (counted log.now)) }
{
    let mut text = Vec::new(alloc);
    for place in 0..log.steps.len() {
        push_step(&mut text, log.steps.at(place))?;
    }
    Ok(text)
}

/// Puts the line of a step behind the text.
fn push_step(text: &mut Vec<u8>, step: StepView<'_>) -> Result<(), AllocError>
    ensures { OnOk result (text.new.items ≡ text.old.items ++ line_text (step_words (shown step.entry))) }
{
    push_number(text, step.id)?;
    text.push(b' ')?;
    push_body(text, step.body)?;
    text.push(b'\n')?;
    Ok(())
}

/// Puts what a step does behind the text.
fn push_body(text: &mut Vec<u8>, body: BodyView<'_>) -> Result<(), AllocError>
    ensures { OnOk result (text.new.items ≡ text.old.items ++ joined (body_words (body_shown body.entry))) }
{
    match body {
        BodyView::Add(lits, hints) => push_addition(text, lits, hints),
        BodyView::Delete(ids) => push_deletion(text, ids),
    }
}

/// Puts a clause and its hints behind the text.
fn push_addition(text: &mut Vec<u8>, lits: &[Lit], hints: &[u64]) -> Result<(), AllocError>
    ensures { OnOk result (text.new.items ≡ text.old.items ++ joined (clause_words (record { lits = lits.now }) ++ id_words hints.now)) }
{
    push_clause(text, lits)?;
    text.push(b' ')?;
    push_ids(text, hints)?;
    Ok(())
}

/// Puts a `d` and ids behind the text.
fn push_deletion(text: &mut Vec<u8>, ids: &[u64]) -> Result<(), AllocError>
    ensures { OnOk result (text.new.items ≡ text.old.items ++ joined (codes "d" ∷ id_words ids.now)) }
{
    text.extend_from_slice(b"d ")?;
    push_ids(text, ids)?;
    Ok(())
}
