//! Reading what stands behind the `=` of an `assign`.

ghost use Rattle.std.specs.Prelude.{◌≡◌, ◌∷◌, ◌<◌, [], true, false, if◌then◌else◌, length, IfOk};
ghost use Rattle.cg_verilog_text.specs.Forms.{Choice as ChoiceSeen, Differ as DifferSeen, choosing, differing, form, fresh_literal, from_literal, literal, on_of, product, rest_of_sum, rest_of_term, sum, term, terms_of};
ghost use Rattle.cg_verilog_text.specs.Reading.{after, ended_by};
ghost use Rattle.cg_verilog_expression.specs.FormParts.{constant, from_term, inverted_form, inverted_sum, plain_sum, rest_of_terms};
ghost use Rattle.cg_verilog_expression.specs.FormSeen.{HasTerms};
ghost use Rattle.cg_verilog_expression.specs.Readings.{IsRead};
ghost use Rattle.cg_verilog_expression.specs.Before.{before_seen};

use crate::before::{Before, stands_before};
use crate::reading::Reading;
use crate::stop::Stop;
use crate::term::{Literal, Term};
use crate::terms::Terms;
use cg_list::Seq;
use std::alloc::{AllocError, Global};
use std::marker::Model;

/// What a net is.
#[derive(Drop)]
pub enum FormKind<'a> {
    /// A bit.
    Constant(bool),

    /// A sum of terms, or the inverse of one where the bit is false.
    Sum(bool, Terms<'a>),

    /// Two literals that differ.
    Differ(Box<Pair<'a>>),

    /// A choice by a literal of the first or the second of two.
    Choice(Box<Choice<'a>>),
}

/// Two literals. They stand in a box where they make a form, since most forms are sums, and a form is handed on by value.
#[derive(Drop)]
pub struct Pair<'a> {
    /// The first.
    pub first: Literal<'a>,

    /// The second.
    pub second: Literal<'a>,
}

/// A literal that chooses one of two.
#[derive(Drop)]
pub struct Choice<'a> {
    /// The literal that chooses.
    pub condition: Literal<'a>,

    /// What it chooses from, the first where it is 1.
    pub chosen: Pair<'a>,
}

/// A form.
#[derive(Drop)]
pub struct Form<'a> {
    /// What it is.
    pub kind: FormKind<'a>,
}

impl<'a> Model for Form<'a> {
    ghost use Rattle.std.specs.Prelude.{List, ℕ};
    ghost use Rattle.cg_verilog_text.specs.Forms.{Form as FormSeen};
    ghost use Rattle.cg_verilog_expression.specs.FormSeen.{HasTerms, form_seen};

    ghost Value = { FormSeen (List ℕ) };

    ghost view = { λ f. form_seen f.kind };

    ghost invariant = { λ f. HasTerms (form_seen f.kind) };
}

impl<'a> Form<'a> {
    /// Whether it is 1 where one of its terms is.
    pub fn on(&self) -> bool
        ensures { result ≡ on_of self.now }
    {
        match &self.kind {
            FormKind::Sum(on, _) => *on,
            _ => true,
        }
    }

    /// The form as a sum of terms.
    pub fn into_terms(self, alloc: Global) -> Result<Terms<'a>, AllocError>
        ensures terms { IfOk result (λ terms. terms ≡ terms_of self.entry) }
        ensures some { HasTerms self.entry }
    {
        match self.kind {
            FormKind::Constant(value) => constant_terms(alloc, value),
            FormKind::Sum(_, terms) => Ok(terms),
            FormKind::Differ(pair) => differing_terms(alloc, Box::into_inner(pair)),
            FormKind::Choice(choice) => choice_terms(alloc, Box::into_inner(choice)),
        }
    }
}

/// The terms of two literals that differ.
fn differing_terms<'a>(alloc: Global, differing: Pair<'a>) -> Result<Terms<'a>, AllocError>
    ensures { IfOk result (λ terms. terms ≡ terms_of (DifferSeen differing.entry.first differing.entry.second)) }
{
    let Pair { first, second } = differing;
    let one = two_literals(alloc, first.copied(alloc)?, second.inverse(alloc)?)?;
    let other = two_literals(alloc, first.inverse(alloc)?, second)?;
    pair_of_terms(alloc, one, other)
}

/// The terms of a choice.
fn choice_terms<'a>(alloc: Global, choice: Choice<'a>) -> Result<Terms<'a>, AllocError>
    ensures { IfOk result (λ terms. terms ≡ terms_of (ChoiceSeen choice.entry.condition choice.entry.chosen.first choice.entry.chosen.second)) }
{
    let Choice { condition, chosen } = choice;
    let Pair { first, second } = chosen;
    let one = two_literals(alloc, condition.copied(alloc)?, first)?;
    let other = two_literals(alloc, condition.inverse(alloc)?, second)?;
    pair_of_terms(alloc, one, other)
}

/// The terms of a bit: an empty one, or none.
fn constant_terms<'a>(alloc: Global, value: bool) -> Result<Terms<'a>, AllocError>
    ensures { IfOk result (λ terms. terms ≡ (if value then [] ∷ [] else [])) }
{
    let mut terms = Terms::new(alloc);
    if value {
        terms.push(alloc, Seq::new(alloc))?;
    }
    Ok(terms)
}

/// Two literals.
fn two_literals<'a>(
    alloc: Global,
    first: Literal<'a>,
    second: Literal<'a>,
) -> Result<Seq<Literal<'a>>, AllocError>
    ensures { IfOk result (λ literals. literals ≡ first.entry ∷ second.entry ∷ []) }
{
    let mut literals = Seq::new(alloc);
    literals.push(first)?;
    literals.push(second)?;
    Ok(literals)
}

/// Two terms.
fn pair_of_terms<'a>(
    alloc: Global,
    first: Seq<Literal<'a>>,
    second: Seq<Literal<'a>>,
) -> Result<Terms<'a>, AllocError>
    ensures { IfOk result (λ terms. terms ≡ first.entry ∷ second.entry ∷ []) }
{
    let mut terms = Terms::new(alloc);
    terms.push(alloc, first)?;
    terms.push(alloc, second)?;
    Ok(terms)
}

impl<'a> Reading<'a> {
    /// Reads a form.
    pub fn form(&mut self, alloc: Global) -> Result<Form<'a>, Stop>
        ensures end { self.new.1 ≡ self.old.1 }
        ensures left { IsRead self.old.1 (form self.old.0) self.new.0 result }
    {
        if self.is_bit() {
            return self.constant();
        }
        if self.is_mark(b'(') {
            return self.plain_sum(alloc);
        }
        if self.is_mark(b'~') {
            self.pass();
            return self.inverted_form(alloc);
        }
        self.form_of_literal(alloc, true)
    }

    /// Reads a bit.
    fn constant(&mut self) -> Result<Form<'a>, Stop>
        ensures end { self.new.1 ≡ self.old.1 }
        ensures left { IsRead self.old.1 (constant self.old.0) self.new.0 result }
    {
        let value = self.bit()?;
        Ok(Form {
            kind: FormKind::Constant(value),
        })
    }

    /// Reads a sum.
    fn plain_sum(&mut self, alloc: Global) -> Result<Form<'a>, Stop>
        ensures end { self.new.1 ≡ self.old.1 }
        ensures left { IsRead self.old.1 (plain_sum self.old.0) self.new.0 result }
    {
        let terms = self.sum(alloc, Terms::new(alloc))?;
        Ok(Form {
            kind: FormKind::Sum(true, terms),
        })
    }

    /// Reads a form behind its first `~`: a sum that it inverts, or what begins with an inverted literal.
    fn inverted_form(&mut self, alloc: Global) -> Result<Form<'a>, Stop>
        ensures end { self.new.1 ≡ self.old.1 }
        ensures left { IsRead self.old.1 (inverted_form self.old.0) self.new.0 result }
    {
        if self.is_mark(b'(') {
            self.pass();
            return self.inverted_sum(alloc);
        }
        self.form_of_literal(alloc, false)
    }

    /// Reads a sum that is inverted, behind its `(`.
    fn inverted_sum(&mut self, alloc: Global) -> Result<Form<'a>, Stop>
        ensures end { self.new.1 ≡ self.old.1 }
        ensures left { IsRead self.old.1 (inverted_sum self.old.0) self.new.0 result }
    {
        let terms = self.closed_sum(alloc)?;
        Ok(Form {
            kind: FormKind::Sum(false, terms),
        })
    }

    /// Reads a sum and the `)`.
    fn closed_sum(&mut self, alloc: Global) -> Result<Terms<'a>, Stop>
        ensures end { self.new.1 ≡ self.old.1 }
        ensures left { IsRead self.old.1 (ended_by 41 (sum [] self.old.0)) self.new.0 result }
        ensures some { IfOk result (λ terms. 0 < length terms) }
    {
        let terms = self.sum(alloc, Terms::new(alloc))?;
        self.mark(b')')?;
        Ok(terms)
    }

    /// Reads a form that begins with the net of a literal.
    fn form_of_literal(&mut self, alloc: Global, plain: bool) -> Result<Form<'a>, Stop>
        ensures end { self.new.1 ≡ self.old.1 }
        ensures left { IsRead self.old.1 (after (fresh_literal plain [] self.old.0) from_literal) self.new.0 result }
    {
        let first = self.first_literal(alloc, plain)?;
        self.from_literal(alloc, first)
    }

    /// Reads the net of a first literal.
    fn first_literal(&mut self, alloc: Global, plain: bool) -> Result<Literal<'a>, Stop>
        ensures end { self.new.1 ≡ self.old.1 }
        ensures left { IsRead self.old.1 (fresh_literal plain [] self.old.0) self.new.0 result }
    {
        let net = self.net(alloc)?;
        Ok(Literal { net, plain })
    }

    /// Reads the rest of a form behind its first literal.
    fn from_literal(&mut self, alloc: Global, first: Literal<'a>) -> Result<Form<'a>, Stop>
        ensures end { self.new.1 ≡ self.old.1 }
        ensures left { IsRead self.old.1 (from_literal first.entry self.old.0) self.new.0 result }
    {
        if self.is_mark(b'^') {
            self.pass();
            return self.differing(alloc, first);
        }
        if self.is_mark(b'?') {
            self.pass();
            return self.choosing(alloc, first);
        }
        self.rest_of_sum(alloc, first)
    }

    /// Reads the second of two literals that differ.
    fn differing(&mut self, alloc: Global, first: Literal<'a>) -> Result<Form<'a>, Stop>
        ensures end { self.new.1 ≡ self.old.1 }
        ensures left { IsRead self.old.1 (differing first.entry self.old.0) self.new.0 result }
    {
        let second = self.literal(alloc, Before::One(&first))?;
        Ok(Form {
            kind: FormKind::Differ(Box::new(alloc, Pair { first, second })?),
        })
    }

    /// Reads the two literals of which the first one chooses.
    fn choosing(&mut self, alloc: Global, first: Literal<'a>) -> Result<Form<'a>, Stop>
        ensures end { self.new.1 ≡ self.old.1 }
        ensures left { IsRead self.old.1 (choosing first.entry self.old.0) self.new.0 result }
    {
        let second = self.second_literal(alloc, &first)?;
        let third = self.literal(alloc, Before::Two(&first, &second))?;
        let choice = Choice {
            condition: first,
            chosen: Pair {
                first: second,
                second: third,
            },
        };
        Ok(Form {
            kind: FormKind::Choice(Box::new(alloc, choice)?),
        })
    }

    /// Reads the literal that is chosen where the first one is 1, and the `:`.
    fn second_literal(&mut self, alloc: Global, first: &Literal<'a>) -> Result<Literal<'a>, Stop>
        ensures end { self.new.1 ≡ self.old.1 }
        ensures left { IsRead self.old.1 (ended_by 58 (literal (first.now ∷ []) self.old.0)) self.new.0 result }
    {
        let second = self.literal(alloc, Before::One(first))?;
        self.mark(b':')?;
        Ok(second)
    }

    /// Reads the rest of a sum behind its first literal.
    fn rest_of_sum(&mut self, alloc: Global, first: Literal<'a>) -> Result<Form<'a>, Stop>
        ensures end { self.new.1 ≡ self.old.1 }
        ensures left { IsRead self.old.1 (rest_of_sum first.entry self.old.0) self.new.0 result }
    {
        let terms = self.rest_of_terms(alloc, first)?;
        Ok(Form {
            kind: FormKind::Sum(true, terms),
        })
    }

    /// Reads the rest of the terms behind the first literal.
    fn rest_of_terms(&mut self, alloc: Global, first: Literal<'a>) -> Result<Terms<'a>, Stop>
        ensures end { self.new.1 ≡ self.old.1 }
        ensures left { IsRead self.old.1 (rest_of_terms first.entry self.old.0) self.new.0 result }
    {
        let term = self.rest_of_term(alloc, first)?;
        self.from_term(alloc, term)
    }

    /// Reads the rest of a sum behind its first term.
    fn from_term(&mut self, alloc: Global, term: Seq<Literal<'a>>) -> Result<Terms<'a>, Stop>
        ensures end { self.new.1 ≡ self.old.1 }
        ensures left { IsRead self.old.1 (from_term term.entry self.old.0) self.new.0 result }
    {
        let mut terms = Terms::new(alloc);
        terms.push(alloc, term)?;
        if self.is_mark(b'|') {
            self.pass();
            return self.sum(alloc, terms);
        }
        Ok(terms)
    }

    /// Reads the rest of a term behind its first literal.
    fn rest_of_term(&mut self, alloc: Global, first: Literal<'a>) -> Result<Seq<Literal<'a>>, Stop>
        ensures end { self.new.1 ≡ self.old.1 }
        ensures left { IsRead self.old.1 (rest_of_term first.entry self.old.0) self.new.0 result }
    {
        let mut term = Term::new(alloc);
        term.push(first)?;
        if self.is_mark(b'&') {
            self.pass();
            return self.product(alloc, term);
        }
        Ok(term.into_literals())
    }

    /// Reads one or more terms with a `|` between each two, behind some that were read.
    fn sum(&mut self, alloc: Global, before: Terms<'a>) -> Result<Terms<'a>, Stop>
        ensures end { self.new.1 ≡ self.old.1 }
        ensures left { IsRead self.old.1 (sum before.entry self.old.0) self.new.0 result }
        ensures some { IfOk result (λ terms. 0 < length terms) }
    {
        let mut terms = before;
        'terms: loop {
            match self.term(alloc) {
                Err(stop) => return Err(stop),
                Ok(term) => terms.push(alloc, term)?,
            }
            if !self.is_mark(b'|') {
                return Ok(terms);
            }
            self.pass();
        }
    }

    /// Reads a term, in parentheses or not.
    fn term(&mut self, alloc: Global) -> Result<Seq<Literal<'a>>, Stop>
        ensures end { self.new.1 ≡ self.old.1 }
        ensures left { IsRead self.old.1 (term self.old.0) self.new.0 result }
    {
        if self.is_mark(b'(') {
            self.pass();
            return self.closed_product(alloc);
        }
        self.product(alloc, Term::new(alloc))
    }

    /// Reads the literals of a term and the `)`.
    fn closed_product(&mut self, alloc: Global) -> Result<Seq<Literal<'a>>, Stop>
        ensures end { self.new.1 ≡ self.old.1 }
        ensures left { IsRead self.old.1 (ended_by 41 (product [] self.old.0)) self.new.0 result }
    {
        let term = self.product(alloc, Term::new(alloc))?;
        self.mark(b')')?;
        Ok(term)
    }

    /// Reads one or more literals with a `&` between each two, behind some that were read.
    fn product(&mut self, alloc: Global, before: Term<'a>) -> Result<Seq<Literal<'a>>, Stop>
        ensures end { self.new.1 ≡ self.old.1 }
        ensures left { IsRead self.old.1 (product before.entry self.old.0) self.new.0 result }
    {
        let mut term = before;
        'literals: loop {
            match self.literal(alloc, Before::Term(&term)) {
                Err(stop) => return Err(stop),
                Ok(literal) => {
                    if term.is_short() {
                        term.push(literal)?;
                    } else {
                        term = term.with(alloc, literal)?;
                    }
                }
            }
            if !self.is_mark(b'&') {
                return Ok(term.into_literals());
            }
            self.pass();
        }
    }

    /// Reads a literal whose net is none of those before it.
    #[inline(always)]
    fn literal(&mut self, alloc: Global, before: Before<'_, 'a>) -> Result<Literal<'a>, Stop>
        ensures end { self.new.1 ≡ self.old.1 }
        ensures left { IsRead self.old.1 (literal (before_seen before.entry) self.old.0) self.new.0 result }
    {
        if self.is_mark(b'~') {
            self.pass();
            return self.fresh_literal(alloc, false, before);
        }
        self.fresh_literal(alloc, true, before)
    }

    /// Reads the net of a literal, which is none of those before it.
    fn fresh_literal(
        &mut self,
        alloc: Global,
        plain: bool,
        before: Before<'_, 'a>,
    ) -> Result<Literal<'a>, Stop>
        ensures end { self.new.1 ≡ self.old.1 }
        ensures left { IsRead self.old.1 (fresh_literal plain (before_seen before.entry) self.old.0) self.new.0 result }
    {
        let line = self.line();
        let net = self.net(alloc)?;
        if stands_before(before, net.bytes()) {
            return Err(Stop::At(line));
        }
        Ok(Literal { net, plain })
    }
}
