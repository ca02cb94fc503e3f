//! The logic cell of a form.

ghost use Rattle.std.specs.Prelude.{◌≡◌, ◌<◌, ◌∷◌, ◌++◌, [], Bool, List, None, Some, IfOk, IsTrue, OnOk, length, map, nat_le, set, slice_get};
ghost use Rattle.std.specs.List.{AllByRecursion, flat_map, list_all};
ghost use Rattle.std.specs.Str.{bytes_eq};
ghost use Rattle.cg_cell.specs.Name.{is_name};
ghost use Rattle.cg_net.specs.Names.{NetName, with_names};
ghost use Rattle.cg_verilog_text.specs.Forms.{Literal as LiteralSeen};
ghost use Rattle.cg_verilog_text.specs.Meaning.{bit_in, once, row_of};
ghost use Rattle.cg_verilog.specs.declared.cover.TheConstants.{FEW};

use crate::inputs::{INLINE, Inputs, put};
use cg_cell::rows::CoverRows;
use cg_cell::shared_covers::SharedCovers;
use cg_list::Seq;
use cg_net::names::NetNames;
use cg_verilog_expression::term::Literal;
use smallvec::SmallVec;
use std::alloc::{AllocError, Global};

/// How many terms a form of a few has at most, and how many literals each.
const FEW: usize = 4;

/// What covers are made with: where their rows are made, one after another, and the covers that cells share.
#[derive(Drop)]
pub struct CoverMaker {
    /// Where a row is made. What is in it is put there by whoever takes it.
    pub row: Vec<Option<bool>>,

    /// The shared covers.
    pub covers: SharedCovers,
}

impl CoverMaker {
    /// Made no cover yet; takes no memory.
    pub fn new(alloc: Global) -> CoverMaker {
        CoverMaker {
            row: Vec::new(alloc),
            covers: SharedCovers::new(alloc),
        }
    }
}

/// The nets of terms, each once, where it stands first.
pub fn inputs_of<'b>(alloc: Global, terms: &'b [Seq<Literal<'_>>]) -> Result<Inputs<'b>, AllocError>
    ensures names { IfOk result (λ names. names ≡ once bytes_eq (flat_map (λ term. map (λ literal. literal.net) term) terms.entry.now)) }
    ensures named { IfOk result (AllByRecursion (λ name. IsTrue (is_name name))) }
{
    if are_few(terms) {
        let names = few_of(alloc, terms)?;
        return Ok(Inputs::few(names));
    }
    let names = table_of(alloc, terms)?;
    Ok(Inputs::many(names))
}

/// Whether terms are few, and each has few literals. Their nets are the same either way.
fn are_few(terms: &[Seq<Literal<'_>>]) -> bool {
    terms.len() <= FEW && are_short(terms)
}

/// Whether each term has few literals.
fn are_short(terms: &[Seq<Literal<'_>>]) -> bool
    ensures { result ≡ list_all (λ term. nat_le (length term) FEW) terms.now }
{
    terms.iter().all(|term| term.len() <= FEW)
}

/// The nets of a few terms, each once, where it stands first.
fn few_of<'b>(
    alloc: Global,
    terms: &'b [Seq<Literal<'_>>],
) -> Result<SmallVec<&'b [u8], INLINE>, AllocError>
    ensures names { IfOk result (λ names. map (λ name. name.now) names.items ≡ once bytes_eq (flat_map (λ term. map (λ literal. literal.net) term) terms.entry.now)) }
    ensures named { IfOk result (λ names. AllByRecursion (λ name. IsTrue (is_name name)) (map (λ name. name.now) names.items)) }
{
    let mut names = SmallVec::new(alloc);
    'terms: for term in terms {
        names = with_few(names, term.as_slice())?;
    }
    Ok(names)
}

/// Names, and the nets of literals that are not among them.
fn with_few<'b>(
    before: SmallVec<&'b [u8], INLINE>,
    term: &'b [Literal<'_>],
) -> Result<SmallVec<&'b [u8], INLINE>, AllocError>
    requires { AllByRecursion (λ name. IsTrue (is_name name)) (map (λ name. name.now) before.items) }
    ensures names { IfOk result (λ names. map (λ name. name.now) names.items ≡ with_names (map (λ name. name.now) before.entry.items) (map (λ literal. literal.net) term.entry.now)) }
    ensures named { IfOk result (λ names. AllByRecursion (λ name. IsTrue (is_name name)) (map (λ name. name.now) names.items)) }
{
    let mut names = before;
    'literals: for literal in term {
        put(&mut names, literal.net.bytes())?;
    }
    Ok(names)
}

/// The nets of terms, each once, where it stands first, in a table.
fn table_of(alloc: Global, terms: &[Seq<Literal<'_>>]) -> Result<NetNames, AllocError>
    ensures names { IfOk result (λ names. names ≡ once bytes_eq (flat_map (λ term. map (λ literal. literal.net) term) terms.now)) }
    ensures named { IfOk result (AllByRecursion (λ name. IsTrue (is_name name))) }
{
    let mut names = NetNames::new(alloc);
    'terms: for term in terms {
        names = with_nets(alloc, names, term.as_slice())?;
    }
    Ok(names)
}

/// Names, and the nets of literals that are not among them.
fn with_nets(alloc: Global, before: NetNames, term: &[Literal<'_>]) -> Result<NetNames, AllocError>
    requires { AllByRecursion (λ name. IsTrue (is_name name)) before }
    ensures names { IfOk result (λ names. names ≡ with_names before (map (λ literal. literal.net) term.now)) }
    ensures named { IfOk result (AllByRecursion (λ name. IsTrue (is_name name))) }
{
    let mut names = before;
    'literals: for literal in term {
        names.intern(alloc, literal.net.bytes())?;
    }
    Ok(names)
}

/// The rows of terms: a place for each input, with the bit of the literal that is its. Each is made in `row`, whatever it held.
pub fn rows_of(
    alloc: Global,
    row: &mut Vec<Option<bool>>,
    inputs: &Inputs<'_>,
    terms: &[Seq<Literal<'_>>],
) -> Result<CoverRows, AllocError>
    ensures { IfOk result (λ rows. rows ≡ map (row_of bytes_eq inputs.now) terms.now) }
{
    let mut rows = CoverRows::new(alloc);
    'terms: for term in terms {
        make_row(row, inputs, term.as_slice())?;
        rows.push(row)?;
    }
    Ok(rows)
}

/// Makes the row of a term.
fn make_row(
    row: &mut Vec<Option<bool>>,
    inputs: &Inputs<'_>,
    term: &[Literal<'_>],
) -> Result<(), AllocError>
    ensures { OnOk result (row.new.items ≡ row_of bytes_eq inputs.now term.now) }
{
    row.clear();
    row.resize(inputs.len(), None)?;
    'literals: for literal in term {
        put_literal(row, inputs, literal);
    }
    Ok(())
}

/// Puts the bit of a literal at the place of its net, unless there is one.
fn put_literal(row: &mut [Option<bool>], inputs: &Inputs<'_>, literal: &Literal<'_>)
    requires { length row.old ≡ length inputs.now }
    ensures { (before : List (LiteralSeen NetName)) → row.old ≡ map (bit_in bytes_eq before) inputs.now
        → row.new ≡ map (bit_in bytes_eq (before ++ literal.now ∷ [])) inputs.now }
{
    let _different = inputs.len();
    match inputs.find(literal.net.bytes()) {
        None => {}
        Some(place) => put_bit(row, place, literal.plain),
    }
}

/// Puts a bit at a place of a row, unless there is one.
fn put_bit(row: &mut [Option<bool>], place: usize, bit: bool)
    requires { place < length row.old }
    ensures none { slice_get row.old place ≡ Some None → row.new ≡ set row.old place (Some bit) }
    ensures some { (other : Bool) → slice_get row.old place ≡ Some (Some other) → row.new ≡ row.old }
{
    if row[place].is_none() {
        row[place] = Some(bit);
    }
}
