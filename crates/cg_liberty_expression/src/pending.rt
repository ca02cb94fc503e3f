//! What waits for the operand that comes, while an expression is read.

ghost use Rattle.std.specs.Prelude.{◌≡◌, ◌∷◌, [], ◌<◌, IfOk, OnOk, true};
ghost use Rattle.cg_liberty_expression.specs.Reading.{AndLeft as AndWaits, Bracket as BracketWaits, Inversion as InversionWaits};
ghost use Rattle.cg_liberty_expression.specs.Reading.{OrLeft as OrWaits, XorLeft as XorWaits, and_end, inv_end, join_and, join_or, join_xor, nesting, or_end, xor_end};
ghost use Rattle.cg_cell.specs.Expr.{term_of};
ghost use Rattle.cg_cell.specs.Term.{Both, Differ, Either, Term};
ghost use Rattle.cg_liberty_expression.specs.inner.Blanked.{blank, blanks};
ghost use Rattle.cg_liberty_expression.specs.inner.PendingSeen.{ends_in_bracket, ends_in_inversion, is_bottom, joined, pending_of};

use crate::join::{both, either, inverse, one_of};
use cg_cell::expr::Expr;
use cg_limit::MOST_NESTING;
use std::alloc::{AllocError, Global};
use std::marker::Model;

/// A part of the text that waits for the operand that comes.
#[derive(Drop)]
enum Pending {
    /// The left operand of an or.
    OrLeft(Expr),

    /// The left operand of an and.
    AndLeft(Expr),

    /// The left operand of an exclusive or.
    XorLeft(Expr),

    /// A sign `!`.
    Inversion,

    /// An open bracket.
    Bracket,
}

/// What waits, and how many brackets and signs `!` are among it. Clauses see it as a list, the last first.
#[derive(Drop)]
pub struct Stack {
    /// What waits last, where anything waits.
    top: Option<Pending>,

    /// What waits below it, the last at the end.
    below: Vec<Pending>,

    /// How many brackets and signs `!` are open.
    depth: usize,
}

impl Model for Stack {
    ghost use Rattle.std.specs.Coded.{codes};
    ghost use Rattle.std.specs.Prelude.{List};
    ghost use Rattle.cg_liberty_expression.specs.Reading.{Pending as SeenPending};
    ghost use Rattle.cg_liberty_expression.specs.inner.PendingSeen.{IsStack, seen};
    ghost use Rattle.cg_cell.specs.TermCode.{term_code};

    ghost Value = { List SeenPending };

    ghost coded = { Prim.hlevel (codes, term_code) };

    ghost view = { λ s. seen s.top s.below.items };

    ghost invariant = { λ s. IsStack s.top s.below.items s.depth };
}

impl Pending {
    /// Puts a constant for its operand, where it has one.
    fn drop_operand(&mut self)
        ensures { pending_of self.new ≡ blank (pending_of self.old) }
    {
        match self {
            Pending::OrLeft(left) => *left = Expr::Constant(false),
            Pending::AndLeft(left) => *left = Expr::Constant(false),
            Pending::XorLeft(left) => *left = Expr::Constant(false),
            Pending::Inversion => {}
            Pending::Bracket => {}
        }
    }
}

impl Stack {
    /// Nothing that waits.
    pub fn new(alloc: Global) -> Stack
        ensures { result ≡ [] }
    {
        Stack {
            top: None,
            below: Vec::new(alloc),
            depth: 0,
        }
    }

    /// How many brackets and signs `!` are open.
    pub fn nesting(&self) -> usize
        ensures { result ≡ nesting self.now }
    {
        self.depth
    }

    /// Whether nothing waits.
    pub fn is_empty(&self) -> bool
        ensures { result ≡ is_bottom self.now }
    {
        self.top.is_none()
    }

    /// Whether a sign `!` waits last.
    fn ends_in_inversion(&self) -> bool
        ensures { result ≡ ends_in_inversion self.now }
    {
        matches!(self.top, Some(Pending::Inversion))
    }

    /// Whether a bracket waits last.
    pub fn ends_in_bracket(&self) -> bool
        ensures { result ≡ ends_in_bracket self.now }
    {
        matches!(self.top, Some(Pending::Bracket))
    }

    /// Puts a constant for the operand that waits last, where that waits for another.
    pub fn drop_operand(&mut self)
        ensures { blanks self.new ≡ blanks self.old }
    {
        if let Some(last) = &mut self.top {
            last.drop_operand();
        }
    }

    /// One more waits last, where so many brackets and signs `!` are then open.
    fn wait(&mut self, last: Pending, depth: usize) -> Result<(), AllocError>
        requires { depth ≡ nesting (pending_of last ∷ self.old) }
        ensures { OnOk result (self.new ≡ pending_of last ∷ self.old) }
    {
        // First the room, so that nothing has changed where there is none.
        self.below.reserve(1)?;
        if let Some(before) = self.top.replace(last) {
            self.below.push_reserved(before);
        }
        self.depth = depth;
        Ok(())
    }

    /// A left operand of an or waits.
    pub fn wait_or(&mut self, left: Expr) -> Result<(), AllocError>
        ensures { OnOk result (self.new ≡ OrWaits (term_of left) ∷ self.old) }
    {
        let depth = self.depth;
        self.wait(Pending::OrLeft(left), depth)
    }

    /// A left operand of an and waits.
    pub fn wait_and(&mut self, left: Expr) -> Result<(), AllocError>
        ensures { OnOk result (self.new ≡ AndWaits (term_of left) ∷ self.old) }
    {
        let depth = self.depth;
        self.wait(Pending::AndLeft(left), depth)
    }

    /// A left operand of an exclusive or waits.
    pub fn wait_xor(&mut self, left: Expr) -> Result<(), AllocError>
        ensures { OnOk result (self.new ≡ XorWaits (term_of left) ∷ self.old) }
    {
        let depth = self.depth;
        self.wait(Pending::XorLeft(left), depth)
    }

    /// A sign `!` opens.
    pub fn open_inversion(&mut self) -> Result<(), AllocError>
        requires { nesting self.old < MOST_NESTING }
        ensures { OnOk result (self.new ≡ InversionWaits ∷ self.old) }
    {
        let depth = self.depth + 1;
        self.wait(Pending::Inversion, depth)
    }

    /// A bracket opens.
    pub fn open_bracket(&mut self) -> Result<(), AllocError>
        requires { nesting self.old < MOST_NESTING }
        ensures { OnOk result (self.new ≡ BracketWaits ∷ self.old) }
    {
        let depth = self.depth + 1;
        self.wait(Pending::Bracket, depth)
    }

    /// The bracket that waits last closes.
    pub fn close_bracket(&mut self)
        requires { ends_in_bracket self.old ≡ true }
        ensures { self.old ≡ BracketWaits ∷ self.new }
    {
        self.top = self.below.pop();
        self.depth -= 1;
    }

    /// The sign `!` that waits last has its operand.
    fn end_inversion(&mut self)
        requires { ends_in_inversion self.old ≡ true }
        ensures { self.old ≡ InversionWaits ∷ self.new }
    {
        self.top = self.below.pop();
        self.depth -= 1;
    }

    /// The left operand of an exclusive or, where one waits last; it waits no more.
    fn end_xor(&mut self) -> Option<Expr>
        ensures { (right : Term) → join_xor (record { term = right; pending = self.old }) ≡ record { term = joined Differ result right; pending = self.new } }
    {
        if !matches!(self.top, Some(Pending::XorLeft(_))) {
            return None;
        }
        let last = self.top.take();
        self.top = self.below.pop();
        match last {
            Some(Pending::XorLeft(left)) => Some(left),
            _ => None,
        }
    }

    /// The left operand of an and, where one waits last; it waits no more.
    fn end_and(&mut self) -> Option<Expr>
        ensures { (right : Term) → join_and (record { term = right; pending = self.old }) ≡ record { term = joined Both result right; pending = self.new } }
    {
        if !matches!(self.top, Some(Pending::AndLeft(_))) {
            return None;
        }
        let last = self.top.take();
        self.top = self.below.pop();
        match last {
            Some(Pending::AndLeft(left)) => Some(left),
            _ => None,
        }
    }

    /// The left operand of an or, where one waits last; it waits no more.
    fn end_or(&mut self) -> Option<Expr>
        ensures { (right : Term) → join_or (record { term = right; pending = self.old }) ≡ record { term = joined Either result right; pending = self.new } }
    {
        if !matches!(self.top, Some(Pending::OrLeft(_))) {
            return None;
        }
        let last = self.top.take();
        self.top = self.below.pop();
        match last {
            Some(Pending::OrLeft(left)) => Some(left),
            _ => None,
        }
    }
}

/// An inv-level ends: each sign `!` before it takes it.
fn end_inversions(alloc: Global, operand: Expr, stack: &mut Stack) -> Result<Expr, AllocError>
    ensures { IfOk result (λ e. inv_end (term_of operand) stack.old ≡ record { term = term_of e; pending = stack.new }) }
{
    let mut operand = operand;
    'inversions: while stack.ends_in_inversion() {
        stack.end_inversion();
        operand = inverse(alloc, operand)?;
    }
    Ok(operand)
}

/// An xor-level ends: an exclusive or that waits takes it as its right operand.
pub fn end_xor(alloc: Global, operand: Expr, stack: &mut Stack) -> Result<Expr, AllocError>
    ensures { IfOk result (λ e. xor_end (term_of operand) stack.old ≡ record { term = term_of e; pending = stack.new }) }
{
    let operand = end_inversions(alloc, operand, stack)?;
    match stack.end_xor() {
        None => Ok(operand),
        Some(left) => one_of(alloc, left, operand),
    }
}

/// An and-level ends: an and that waits takes it as its right operand.
pub fn end_and(alloc: Global, operand: Expr, stack: &mut Stack) -> Result<Expr, AllocError>
    ensures { IfOk result (λ e. and_end (term_of operand) stack.old ≡ record { term = term_of e; pending = stack.new }) }
{
    let operand = end_xor(alloc, operand, stack)?;
    match stack.end_and() {
        None => Ok(operand),
        Some(left) => both(alloc, left, operand),
    }
}

/// An or-level ends: an or that waits takes it as its right operand.
pub fn end_or(alloc: Global, operand: Expr, stack: &mut Stack) -> Result<Expr, AllocError>
    ensures { IfOk result (λ e. or_end (term_of operand) stack.old ≡ record { term = term_of e; pending = stack.new }) }
{
    let operand = end_and(alloc, operand, stack)?;
    match stack.end_or() {
        None => Ok(operand),
        Some(left) => either(alloc, left, operand),
    }
}
