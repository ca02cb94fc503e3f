//! Lines of assignments: literals, terms, sums of terms, constants.

ghost use Rattle.std.specs.Prelude.{◌≡◌, ◌++◌, ◌∷◌, OnOk};
ghost use Rattle.cg_verilog_text.specs.Forms.{Constant, Sum};
ghost use Rattle.cg_verilog_text.specs.Items.{Assign};
ghost use Rattle.cg_verilog_text.specs.Written.{item_line, literal_text, sum_text, term_text};
ghost use Rattle.cg_verilog_out.specs.Pieces.{literals_text, more_literals, more_terms};

use crate::items::push_bit;
use crate::literal::{OutLiteral, Term};
use crate::names::push_name;
use std::alloc::AllocError;

/// Appends a literal.
fn push_literal(out: &mut Vec<u8>, literal: &OutLiteral<'_>) -> Result<(), AllocError>
    ensures { OnOk result (out.new.items ≡ out.old.items ++ literal_text literal.now) }
{
    if !literal.plain {
        out.push(b'~')?;
    }
    push_name(out, literal.net)
}

/// Appends literals, each behind `&`.
#[tactic(auto, using(crate::proofs::PieceLemmas::literals))]
fn push_more_literals(out: &mut Vec<u8>, literals: &[OutLiteral<'_>]) -> Result<(), AllocError>
    ensures { OnOk result (out.new.items ≡ out.old.items ++ more_literals literals.now) }
{
    'literals: for literal in literals {
        out.extend_from_slice(b"& ")?;
        push_literal(out, literal)?;
    }
    Ok(())
}

/// Appends a literal, and others with `&` between each two.
#[tactic(auto, using(crate::proofs::PieceLemmas::literals))]
fn push_first_literals(
    out: &mut Vec<u8>,
    first: &OutLiteral<'_>,
    more: &[OutLiteral<'_>],
) -> Result<(), AllocError>
    ensures { OnOk result (out.new.items ≡ out.old.items ++ literals_text (first.now ∷ more.now)) }
{
    push_literal(out, first)?;
    push_more_literals(out, more)
}

/// Appends literals with `&` between each two.
fn push_literals(out: &mut Vec<u8>, literals: &[OutLiteral<'_>]) -> Result<(), AllocError>
    ensures { OnOk result (out.new.items ≡ out.old.items ++ literals_text literals.now) }
{
    match literals.split_first() {
        None => Ok(()),
        Some((first, more)) => push_first_literals(out, first, more),
    }
}

/// Appends a term.
#[tactic(auto, using(crate::proofs::PieceLemmas::literals))]
fn push_term(out: &mut Vec<u8>, term: &[OutLiteral<'_>]) -> Result<(), AllocError>
    ensures { OnOk result (out.new.items ≡ out.old.items ++ term_text term.now) }
{
    out.push(b'(')?;
    push_literals(out, term)?;
    out.push(b')')?;
    Ok(())
}

/// Appends terms, each behind `|`.
#[tactic(auto, using(crate::proofs::PieceLemmas::terms))]
fn push_more_terms(out: &mut Vec<u8>, terms: &[Term<'_>]) -> Result<(), AllocError>
    ensures { OnOk result (out.new.items ≡ out.old.items ++ more_terms terms.now) }
{
    'terms: for term in terms {
        out.extend_from_slice(b" | ")?;
        push_term(out, term.as_slice())?;
    }
    Ok(())
}

/// Appends a term, and others with `|` between each two.
#[tactic(auto, using(crate::proofs::PieceLemmas::terms))]
fn push_first_terms(
    out: &mut Vec<u8>,
    first: &[OutLiteral<'_>],
    more: &[Term<'_>],
) -> Result<(), AllocError>
    ensures { OnOk result (out.new.items ≡ out.old.items ++ sum_text (first.now ∷ more.now)) }
{
    push_term(out, first)?;
    push_more_terms(out, more)
}

/// Appends a sum of terms.
#[tactic(auto, using(crate::proofs::PieceLemmas::terms))]
fn push_sum(out: &mut Vec<u8>, terms: &[Term<'_>]) -> Result<(), AllocError>
    ensures { OnOk result (out.new.items ≡ out.old.items ++ sum_text terms.now) }
{
    match terms.split_first() {
        None => Ok(()),
        Some((first, more)) => push_first_terms(out, first.as_slice(), more),
    }
}

/// Appends the line of a net that is a constant.
pub(crate) fn push_constant(out: &mut Vec<u8>, net: &[u8], value: bool) -> Result<(), AllocError>
    ensures { OnOk result (out.new.items ≡ out.old.items ++ item_line (Assign net.now (Constant value))) }
{
    out.extend_from_slice(b"  assign ")?;
    push_name(out, net)?;
    out.extend_from_slice(b"= ")?;
    push_bit(out, value)?;
    out.extend_from_slice(b";\n")
}

/// Appends the line of a net that is a sum of terms, or the inverse of one where `on` is false.
pub(crate) fn push_assign(
    out: &mut Vec<u8>,
    net: &[u8],
    on: bool,
    terms: &[Term<'_>],
) -> Result<(), AllocError>
    ensures { OnOk result (out.new.items ≡ out.old.items ++ item_line (Assign net.now (Sum on terms.now))) }
{
    out.extend_from_slice(b"  assign ")?;
    push_name(out, net)?;
    if on {
        out.extend_from_slice(b"= ")?;
        push_sum(out, terms)?;
        out.extend_from_slice(b";\n")
    } else {
        out.extend_from_slice(b"= ~(")?;
        push_sum(out, terms)?;
        out.extend_from_slice(b");\n")
    }
}
