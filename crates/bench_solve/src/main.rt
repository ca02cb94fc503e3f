//! Solves formulas from DIMACS texts and checks each log, so that the solver can be timed alone.
//!
//! - `bench_solve CNF OUT` solves the formula in the file `CNF`. A log is stored in the file `OUT`, as LRAT.
//! - `bench_solve all CNFS` solves each formula of the file `CNFS`, where they stand one behind the other, with one
//!   solver.
//!
//! It says whether the formula is satisfiable and what the checker says of the log.
#![tactic(auto)]

ghost use Rattle.std.specs.Prelude.{◌+◌, ◌<◌, ◌≤◌, length, IfOk};
ghost use Rattle.std.specs.Option.{IfSome};
ghost use Rattle.cg_lrat.specs.Bounds.{IsLog};

use cg_formula::{Formula, Lit, read_dimacs};
use cg_lrat::{Checker, Log, Verdict, write_lrat};
use cg_sat::{Solved, Solver};
use std::alloc::{AllocError, Global};
use std::{env, fs, io};

// What is said of a formula.
#[derive(Clone, Copy)]
enum Said {
    Satisfiable,
    Unsatisfiable,
    ModelFails,
    LogFails,
    BadText,
}

fn is_true(bits: &[bool], lit: Lit) -> bool {
    match bits.get((lit.variable as usize).wrapping_sub(1)) {
        Some(bit) => *bit != lit.inverted,
        None => false,
    }
}

fn is_model(formula: &Formula, bits: &[bool]) -> bool {
    for place in 0..formula.clauses.len() {
        let clause = formula.clauses.at(place);
        if !clause.iter().any(|lit| is_true(bits, *lit)) {
            return false;
        }
    }
    true
}

fn checked(alloc: Global, formula: &Formula, log: &Log) -> Result<Said, AllocError> {
    match Checker::check(alloc, formula, log)? {
        Verdict::Accepted => Ok(Said::Unsatisfiable),
        Verdict::Rejected(_, _) => Ok(Said::LogFails),
    }
}

// Solves the formula of a text.
fn solve(alloc: Global, solver: &mut Solver, text: &[u8]) -> Result<(Said, Option<Log>), AllocError>
    ensures { IfOk result (λ made. IfSome made.1 IsLog) }
{
    let Ok(formula) = read_dimacs(alloc, text) else {
        return Ok((Said::BadText, None));
    };
    match solver.solve(&formula)? {
        Solved::Sat(bits) if is_model(&formula, bits.as_slice()) => Ok((Said::Satisfiable, None)),
        Solved::Sat(_) => Ok((Said::ModelFails, None)),
        Solved::Unsat(log) => Ok((checked(alloc, &formula, &log)?, Some(log))),
    }
}

fn text_of(said: Said) -> &'static str {
    match said {
        Said::Satisfiable => "satisfiable, and the model holds",
        Said::Unsatisfiable => "unsatisfiable, and the log is accepted",
        Said::ModelFails => "the model fails",
        Said::LogFails => "the log is rejected",
        Said::BadText => "no formula",
    }
}

// Where the formula that begins at a place ends: at the next line that begins as a header does.
fn end_of(text: &[u8], from: usize) -> usize
    requires { from < length text.now }
    ensures later { from < result }
    ensures within { result ≤ length text.now }
{
    for at in from + 1..text.len() {
        if text[at - 1] == b'\n' && text[at] == b'p' {
            return at;
        }
    }
    text.len()
}

// How many formulas are satisfiable, unsatisfiable, and neither.
#[derive(Clone, Copy)]
struct Counts {
    satisfiable: u64,
    unsatisfiable: u64,
    others: u64,
}

fn solve_all(alloc: Global, text: &[u8]) -> Result<Counts, AllocError> {
    let mut solver = Solver::new(alloc);
    let mut counts = Counts {
        satisfiable: 0,
        unsatisfiable: 0,
        others: 0,
    };
    let mut from = 0;
    'texts: while from < text.len() {
        let end = end_of(text, from);
        let (said, _) = solve(alloc, &mut solver, &text[from..end])?;
        match said {
            Said::Satisfiable => counts.satisfiable = counts.satisfiable.wrapping_add(1),
            Said::Unsatisfiable => counts.unsatisfiable = counts.unsatisfiable.wrapping_add(1),
            _ => counts.others = counts.others.wrapping_add(1),
        }
        from = end;
    }
    Ok(counts)
}

fn solve_one(rt: HostRuntime, name: &str, out: &str) -> io::Result<()> {
    let alloc = rt.alloc();
    let bytes = fs::read(&rt, name)?;
    let mut solver = Solver::new(alloc);
    let (said, log) = solve(alloc, &mut solver, &bytes)?;
    if let Some(log) = log {
        let text = write_lrat(alloc, &log)?;
        fs::write(&rt, out, text.as_slice())?;
    }
    let line = text_of(said);
    println!(rt; "{line}")
}

fn main(rt: HostRuntime) -> io::Result<()> {
    let alloc = rt.alloc();
    let words = env::args(&rt)?.collect::<Vec<String>>(alloc)?;
    match words.as_slice() {
        [_, first, name] if first.as_str() == "all" => {
            let bytes = fs::read(&rt, name.as_str())?;
            let counts = solve_all(alloc, &bytes)?;
            let (satisfiable, unsatisfiable, others) = (
                counts.satisfiable,
                counts.unsatisfiable,
                counts.others,
            );
            println!(rt; "satisfiable {satisfiable} unsatisfiable {unsatisfiable} others {others}")
        }
        [_, name, out] => solve_one(rt, name.as_str(), out.as_str()),
        _ => println!(rt; "bench_solve CNF OUT, or bench_solve all CNFS"),
    }
}
