//! The mode `lrat`: a proof log is checked against a formula.

ghost use Rattle.std.specs.Prelude.{◌≡◌, ◌++◌, decimal, IfOk, IsTrue, OnOk};
ghost use Rattle.cg_run.specs.Names.{name_of};
ghost use Rattle.cg_run.specs.Promise.{FinishBy};
ghost use Rattle.cg_run.specs.Run.{Runs};
ghost use Rattle.cg_run.specs.Verdict.{Answers};
ghost use Rattle.cg_tool.specs.Lrat.{IsChecked, cause_text, check_finish, check_text, lrat_gives, lrat_start, lrat_stops, lrat_takes};
ghost use Rattle.cg_tool.specs.Lrat.{lrat_task};

use cg_formula::{ClauseList, Formula};
use cg_list::Seq;
use cg_lrat::{Checker, Log, StepList, Verdict, Why};
use cg_run::{Finish, Mode, Names, Output, Reader, Role, Status, Trouble, drive};
use cg_shelf::Shelf;
use cg_source::formula::take_formula;
use cg_source::log::take_log;
use cg_text::number::push_number;
use std::alloc::{AllocError, Global};
use std::mem::replace;

/// What the mode has read so far.
#[derive(Debug, Drop)]
pub struct Lrat {
    pub formula: Formula,
    pub log: Log,
}

impl Lrat {
    /// Nothing is read yet.
    fn start(alloc: Global) -> Lrat
        ensures { result ≡ lrat_start }
    {
        Lrat {
            formula: Formula {
                variables: 0,
                clauses: ClauseList::new(alloc),
            },
            log: Log {
                steps: StepList::new(alloc),
            },
        }
    }

    /// With the formula of a text in place of its own.
    fn with_formula(self, alloc: Global, text: &Seq<u8>) -> Result<Lrat, Trouble>
        ensures { Answers (lrat_takes self Role.Formula text.now) result }
    {
        let mut next = self;
        match take_formula(alloc, text) {
            Ok(formula) => {
                // By a call, here and below, as its parts would else be dropped one by one in the proof.
                drop(replace(&mut next.formula, formula));
                Ok(next)
            }
            Err(trouble) => {
                drop(next);
                Err(trouble)
            }
        }
    }

    /// With the log of a text in place of its own.
    fn with_log(self, alloc: Global, text: &Seq<u8>) -> Result<Lrat, Trouble>
        ensures { Answers (lrat_takes self Role.Log text.now) result }
    {
        let mut next = self;
        match take_log(alloc, text) {
            Ok(log) => {
                drop(replace(&mut next.log, log));
                Ok(next)
            }
            Err(trouble) => {
                drop(next);
                Err(trouble)
            }
        }
    }
}

impl Reader for Lrat {
    ghost takes = { lrat_takes };

    /// Takes the formula and then the log, as each is loaded.
    fn take(self, alloc: Global, role: Role, bytes: Seq<u8>) -> Result<Lrat, Trouble> {
        match role {
            Role::Formula => self.with_formula(alloc, &bytes),
            Role::Log => self.with_log(alloc, &bytes),
            _ => Ok(self),
        }
    }
}

impl Mode for Lrat {
    ghost stops = { lrat_stops };

    ghost gives = { lrat_gives };

    /// Checks the log, and says what the check comes to.
    fn finish(self, alloc: Global) -> Result<Output, Trouble> {
        let found = Checker::check(alloc, &self.formula, &self.log)?;
        let said = Seq::from_vec(check_text(alloc, found)?);
        let finish = check_finish(found);
        Ok(Output {
            stores: Seq::new(alloc),
            said,
            finish,
        })
    }
}

/// Checks the log against the formula, over the shelf.
pub fn run<S: Shelf>(alloc: Global, shelf: &mut S, names: &Names<'_>) -> Status
    ensures runs { Runs lrat_task (name_of names.now) (S.world shelf.old) (S.world shelf.new) result }

    // A finished run checked the log that it was given, and what it accepts has no satisfying assignment.
    ensures checked { IsTrue (S.world shelf.old).tells
        → FinishBy (IsChecked (name_of names.now) (S.world shelf.old) (S.world shelf.new)) result }
{
    drive(
        alloc,
        shelf,
        names,
        &[Role::Formula, Role::Log],
        Lrat::start(alloc),
    )
}

/// How a run ends by what its check comes to.
fn check_finish(found: Verdict) -> Finish
    ensures { result ≡ check_finish found }
{
    match found {
        Verdict::Accepted => Finish::Done,
        Verdict::Rejected(_, _) => Finish::Rejected,
    }
}

/// What is said of a check.
fn check_text(alloc: Global, found: Verdict) -> Result<Vec<u8>, AllocError>
    ensures { IfOk result (λ text. text.items ≡ check_text found) }
{
    match found {
        Verdict::Accepted => Vec::from_slice(alloc, b"accepted\n"),
        Verdict::Rejected(line, why) => rejected_text(alloc, line, why),
    }
}

/// What is said of a log that is rejected at this line.
fn rejected_text(alloc: Global, line: u64, why: Why) -> Result<Vec<u8>, AllocError>
    ensures { IfOk result (λ text. text.items ≡ check_text (Verdict.Rejected line why)) }
{
    let mut text = Vec::from_slice(alloc, b"rejected line ")?;
    push_number(&mut text, line)?;
    text.push(b' ')?;
    push_cause(&mut text, why)?;
    text.push(b'\n')?;
    Ok(text)
}

/// Appends the cause why a log is rejected.
fn push_cause(text: &mut Vec<u8>, why: Why) -> Result<(), AllocError>
    ensures { OnOk result (text.new.items ≡ text.old.items ++ cause_text why) }
{
    match why {
        Why::UsedId(id) => push_numbered(text, b"used id ", id),
        Why::UnknownId(id) => push_numbered(text, b"unknown id ", id),
        Why::Tautology => text.extend_from_slice(b"tautology"),
        Why::NotUnit(hint) => push_numbered(text, b"not unit ", hint),
        Why::NotFalse(hint) => push_numbered(text, b"not false ", hint),
        Why::NoHint => text.extend_from_slice(b"no hint"),
        Why::NoEmpty => text.extend_from_slice(b"no empty clause"),
    }
}

/// Appends words and a number.
fn push_numbered(text: &mut Vec<u8>, words: &[u8], number: u64) -> Result<(), AllocError>
    ensures { OnOk result (text.new.items ≡ text.old.items ++ (words.now ++ decimal number)) }
{
    text.extend_from_slice(words)?;
    push_number(text, number)
}
