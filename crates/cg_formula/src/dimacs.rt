//! The DIMACS CNF text of a formula.

ghost use Rattle.std.specs.Prelude.{◌≡◌, ◌++◌, ◌<◌, ◌&&◌, Ok, IfOk, OnOk, codes, map};
ghost use Rattle.std.specs.Str.{bytes_eq};
ghost use Rattle.cg_limit.specs.Answers.{OrNoMemory};
ghost use Rattle.cg_text.specs.Written.{line_text, text_of};
ghost use Rattle.cg_formula.specs.Bounds.{IsFormula};
ghost use Rattle.cg_formula.specs.declared.formula.Formula.{Formula};
ghost use Rattle.cg_formula.specs.declared.dimacs.DimacsFault.TheVariants.{NoMemory};
ghost use Rattle.cg_formula.specs.DimacsText.{DimacsText, header_words, clause_words, dimacs_text};
ghost use Rattle.cg_formula.specs.inner.ReadingOn.{lits_before};
ghost use Rattle.cg_formula.specs.DimacsReading.{counts_of, header_of, clause_at, clauses_at, dimacs};

use crate::clause_list::{ClauseList, push_end};
use crate::formula::{Formula, Lit};
use crate::token::{ClauseToken, push_clause, read_clause_token};
use cg_limit::{Limit, MOST_VARIABLES};
use cg_text::blanks::Blanks;
use cg_text::lines::{Comments, Layout, Lines};
use cg_text::number::{Number, push_number, read_number};
use cg_text::tokens::Tokens;
use cg_text::words::Words;
use std::alloc::{AllocError, AllocFailed, Global};

/// How DIMACS and LRAT texts are cut into lines and words.
pub const LAYOUT: Layout = Layout {
    blanks: Blanks::Whitespace,
    comments: Comments::LeadingC,
};

/// Why a DIMACS text is refused.
#[derive(Clone, Copy, Debug, PartialEq, Eq)]
pub enum DimacsFault {
    /// The first line that has words is not `p cnf`, the number of variables and the number of clauses.
    BadHeader,
    /// The line of the first word that no clause can go on with; or, where the text ends too early, the number of
    /// its lines and one more.
    BadClause(u64),
    /// The header names more than 16,777,216 variables.
    Limit(Limit),
    /// There was no memory for the formula.
    NoMemory,
}

impl From<AllocError> for DimacsFault {
    ghost use Rattle.std.specs.Prelude.{◌≡◌};
    ghost use Rattle.cg_formula.specs.declared.dimacs.DimacsFault.TheVariants.{NoMemory};

    ghost from_gives = { λ _ e. e ≡ NoMemory };

    fn from(_: AllocError) -> Self {
        DimacsFault::NoMemory
    }
}

impl<T: Drop> From<AllocFailed<T>> for DimacsFault {
    ghost use Rattle.std.specs.Prelude.{◌≡◌};
    ghost use Rattle.cg_formula.specs.declared.dimacs.DimacsFault.TheVariants.{NoMemory};

    ghost from_gives = { λ _ e. e ≡ NoMemory };

    fn from(_: AllocFailed<T>) -> Self {
        DimacsFault::NoMemory
    }
}

/// The numbers of a header.
#[derive(Clone, Copy)]
struct Header {
    variables: u32,
    clauses: u64,
}

/// The numbers of the first line.
fn read_header(line: Words<'_>) -> Result<Header, DimacsFault>
    ensures { OrNoMemory NoMemory (λ header. header) result (header_of line.entry) }
{
    let mut words = line;
    let problem = words.next_word().ok_or(DimacsFault::BadHeader)?;
    let format = words.next_word().ok_or(DimacsFault::BadHeader)?;
    let variables = words.next_word().ok_or(DimacsFault::BadHeader)?;
    let clauses = words.next_word().ok_or(DimacsFault::BadHeader)?;
    if words.is_empty() && is_cnf(problem, format) {
        read_counts(read_number(variables), read_number(clauses))
    } else {
        Err(DimacsFault::BadHeader)
    }
}

/// Whether these are the words `p cnf`.
fn is_cnf(problem: &[u8], format: &[u8]) -> bool
    ensures { result ≡ (bytes_eq problem.now (codes "p") && bytes_eq format.now (codes "cnf")) }
{
    problem == b"p".as_slice() && format == b"cnf".as_slice()
}

/// The numbers of variables and clauses.
fn read_counts(variables: Number, clauses: Number) -> Result<Header, DimacsFault>
    ensures { OrNoMemory NoMemory (λ header. header) result (counts_of variables clauses) }
{
    match (variables, clauses) {
        (Number::Misspelled, _) | (_, Number::Misspelled | Number::Large) => {
            Err(DimacsFault::BadHeader)
        }
        (Number::Small(variables), Number::Small(clauses))
            if variables <= u64::from(MOST_VARIABLES) => Ok(Header {
            variables: variables as u32,
            clauses,
        }),
        _ => Err(DimacsFault::Limit(Limit::Variables)),
    }
}

/// Puts the literals up to the zero that ends the clause behind others.
fn read_clause(
    tokens: &mut Tokens<'_>,
    variables: u32,
    lits: &mut Vec<Lit>,
) -> Result<(), DimacsFault>
    ensures clause { OrNoMemory NoMemory (λ _. (lits.new.items, tokens.new.left)) result (lits_before lits.old.items (clause_at variables tokens.old.end tokens.old.left)) }
    ensures end { tokens.new.end ≡ tokens.old.end }
{
    'literals: loop {
        let token = match tokens.next_token() {
            Ok(token) => token,
            Err(end) => return Err(DimacsFault::BadClause(end)),
        };
        match read_clause_token(token.text, variables) {
            ClauseToken::Literal(lit) => lits.push(lit)?,
            ClauseToken::End => break,
            ClauseToken::Other => return Err(DimacsFault::BadClause(token.line)),
        }
    }
    Ok(())
}

/// The clauses that the header promises, and nothing behind them.
fn read_clauses(
    alloc: Global,
    tokens: &mut Tokens<'_>,
    header: Header,
) -> Result<ClauseList, DimacsFault>
    ensures { OrNoMemory NoMemory (λ clauses. clauses) result (clauses_at header.variables tokens.old.end header.clauses tokens.old.left) }
{
    let mut lits = Vec::new(alloc);
    let mut ends = Vec::new(alloc);
    for _done in 0..header.clauses {
        read_clause(tokens, header.variables, &mut lits)?;
        push_end(lits.as_slice(), &mut ends)?;
    }
    match tokens.next_token() {
        Ok(token) => Err(DimacsFault::BadClause(token.line)),
        Err(_) => Ok(ClauseList::from_ends(lits, ends)),
    }
}

/// The formula, or the first fault.
fn read_text(alloc: Global, text: &[u8]) -> Result<Formula, DimacsFault>
    ensures { OrNoMemory NoMemory (λ formula. formula) result (dimacs text.now) }
{
    let mut lines = Lines::new(text, LAYOUT);
    let Ok(first) = lines.next_line() else {
        return Err(DimacsFault::BadHeader);
    };
    let header = read_header(first.words)?;
    let mut tokens = Tokens::new(lines);
    let clauses = read_clauses(alloc, &mut tokens, header)?;
    Ok(Formula {
        variables: header.variables,
        clauses,
    })
}

/// Reads the DIMACS CNF text of a formula.
///
/// Lines that begin with `c` and lines without words are passed over. The first other line is `p cnf V C`. Behind it
/// come the literals of C clauses, each clause ended by `0`; a clause may run over several lines, and several may
/// stand on one. Numbers are decimal digits without a leading zero.
///
/// A text is refused at its first fault: the header before all clauses, and in the header its form before the limit
/// on variables.
pub fn read_dimacs(alloc: Global, text: &[u8]) -> Result<Formula, DimacsFault>
    ensures found { IfOk result (DimacsText text.now) }
    ensures only { (formula : Formula) → DimacsText text.now formula → OrNoMemory NoMemory (λ read. read) result (Ok formula) }
    ensures exact { OrNoMemory NoMemory (λ read. read) result (dimacs text.now) }
{
    read_text(alloc, text)
}

/// Writes the DIMACS CNF text of a formula: the header, and a line for each clause.
pub fn write_dimacs(alloc: Global, formula: &Formula) -> Result<Vec<u8>, AllocError>
    requires { IsFormula formula.now }
    ensures written { IfOk result (λ text. text.items ≡ dimacs_text formula.now) }
    ensures again { IfOk result (λ text. DimacsText text.items formula.now) }
{
    let mut text = Vec::new(alloc);
    let count = formula.clauses.len();
    push_header(&mut text, formula.variables, count)?;
    push_clauses(&mut text, &formula.clauses)?;
    Ok(text)
}

/// Puts the lines of clauses behind the text.
fn push_clauses(text: &mut Vec<u8>, clauses: &ClauseList) -> Result<(), AllocError>
    ensures { OnOk result (text.new.items ≡ text.old.items ++ text_of (map clause_words clauses.now)) }
{
    for place in 0..clauses.len() {
        push_clause(text, clauses.at(place))?;
        text.push(b'\n')?;
    }
    Ok(())
}

/// Puts the header line behind the text.
fn push_header(text: &mut Vec<u8>, variables: u32, clauses: usize) -> Result<(), AllocError>
    ensures { OnOk result (text.new.items ≡ text.old.items ++ line_text (header_words variables clauses)) }
{
    text.extend_from_slice(b"p cnf ")?;
    push_number(text, u64::from(variables))?;
    text.push(b' ')?;
    push_number(text, clauses as u64)?;
    text.push(b'\n')?;
    Ok(())
}
