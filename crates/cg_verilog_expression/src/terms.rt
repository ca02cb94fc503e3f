//! The terms of a sum.

ghost use Rattle.std.specs.Prelude.{◌≡◌, ◌∷◌, ◌++◌, [], IfOk, OnOk};
ghost use Rattle.cg_verilog_expression.specs.TermsSeen.{terms_seen};

use crate::term::Literal;
use cg_list::Seq;
use std::alloc::{AllocError, Global};
use std::marker::Model;
use std::mem;
use std::slice::from_ref;

/// Terms as they are held.
#[derive(Drop)]
pub enum TermsKind<'a> {
    /// One.
    One(Seq<Literal<'a>>),

    /// Any number.
    Any(Seq<Seq<Literal<'a>>>),
}

/// The terms of a sum. Most sums have one, which takes no memory beside its literals.
///
/// Clauses see the list of them.
#[derive(Drop)]
pub struct Terms<'a> {
    kind: TermsKind<'a>,
}

impl<'a> Model for Terms<'a> {
    ghost use Rattle.std.specs.Prelude.{List, ℕ};
    ghost use Rattle.cg_verilog_text.specs.Forms.{Literal as LiteralSeen};
    ghost use Rattle.cg_verilog_expression.specs.TermsSeen.{terms_seen};

    ghost Value = { List (List (LiteralSeen (List ℕ))) };

    ghost view = { λ t. terms_seen t.kind };
}

impl<'a> Terms<'a> {
    /// No terms.
    pub fn new(alloc: Global) -> Terms<'a>
        ensures { result ≡ [] }
    {
        Terms {
            kind: TermsKind::Any(Seq::new(alloc)),
        }
    }

    /// Puts a term behind the others.
    pub fn push(&mut self, alloc: Global, term: Seq<Literal<'a>>) -> Result<(), AllocError>
        ensures parts { OnOk result (self.new ≡ self.old ++ term.entry ∷ []) }
    {
        let before = mem::replace(&mut self.kind, TermsKind::Any(Seq::new(alloc)));
        self.kind = with_term(alloc, before, term)?;
        Ok(())
    }

    /// The terms, to be read.
    pub fn as_slice(&self) -> &[Seq<Literal<'a>>]
        ensures { result.now ≡ self.now }
    {
        match &self.kind {
            TermsKind::One(term) => from_ref(term),
            TermsKind::Any(terms) => terms.as_slice(),
        }
    }
}

/// Terms with one more behind them.
fn with_term<'a>(
    alloc: Global,
    before: TermsKind<'a>,
    term: Seq<Literal<'a>>,
) -> Result<TermsKind<'a>, AllocError>
    ensures { IfOk result (λ kind. terms_seen kind ≡ terms_seen before.entry ++ term.entry ∷ []) }
{
    match before {
        TermsKind::One(first) => two_terms(alloc, first, term),
        TermsKind::Any(terms) => {
            if terms.is_empty() {
                return Ok(TermsKind::One(term));
            }
            let mut terms = terms;
            terms.push(term)?;
            Ok(TermsKind::Any(terms))
        }
    }
}

/// Two terms.
fn two_terms<'a>(
    alloc: Global,
    first: Seq<Literal<'a>>,
    second: Seq<Literal<'a>>,
) -> Result<TermsKind<'a>, AllocError>
    ensures { IfOk result (λ kind. terms_seen kind ≡ first.entry ∷ second.entry ∷ []) }
{
    let mut terms = Seq::new(alloc);
    terms.push(first)?;
    terms.push(second)?;
    Ok(TermsKind::Any(terms))
}
