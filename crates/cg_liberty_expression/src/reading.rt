//! Reading the text of an expression, token by token.

ghost use Rattle.std.specs.Prelude.{◌≡◌, ◌∷◌, [], ◌<◌, ◌^◌, IfErr, IfOk, OnOk, IsTrue, length, slice_index};
ghost use Rattle.std.specs.List.{position_from};
ghost use Rattle.std.specs.Str.{bytes_eq};
ghost use Rattle.cg_cell.specs.Expr.{is_over, term_of};
ghost use Rattle.cg_cell.specs.Term.{Term, is_within};
ghost use Rattle.cg_limit.specs.Answers.{OrNoMemory};
ghost use Rattle.cg_liberty_expression.specs.declared.fault.ExprFault.TheVariants.{NoMemory};
ghost use Rattle.cg_liberty_expression.specs.Faults.{IsFirstExprFault};
ghost use Rattle.cg_liberty_expression.specs.Grammar.{ExprText};
ghost use Rattle.cg_liberty_expression.specs.Reading.{AndLeft, OrLeft, XorLeft, and_end, xor_end};
ghost use Rattle.cg_liberty_expression.specs.Reading.{begin, Expects, closed, constant, finish, go_on, complete, leaf};
ghost use Rattle.cg_liberty_expression.specs.Reading.{opened, or_end, read_text, step, Bracket, Inversion};
ghost use Rattle.cg_liberty_expression.specs.inner.TokensSeen.{token_of};
ghost use Rattle.cg_liberty_expression.specs.Reads.{mode_of};

use crate::fault::ExprFault;
use crate::join::inverse;
use crate::pending::{Stack, end_and, end_or, end_xor};
use crate::tokens::{Token, TokenKind, Tokens, is_digit, is_letter};
use cg_cell::expr::Expr;
use cg_cell::name::Name;
use cg_limit::MOST_NESTING;
use std::alloc::{AllocError, Global};

/// Where a reading stands: the operand that may be complete, where there is one, and what waits before it.
#[derive(Drop)]
pub struct Reading {
    /// The operand that may be complete.
    pub operand: Option<Expr>,

    /// What waits before it.
    pub stack: Stack,
}

impl Reading {
    /// Nothing is read yet.
    pub fn new(alloc: Global) -> Reading
        ensures { mode_of result.operand result.stack ≡ Expects [] }
    {
        Reading {
            operand: None,
            stack: Stack::new(alloc),
        }
    }
}

/// Reads an expression as Liberty writes it, over the pins, which are its variables in their order.
///
/// From the strongest: `'` behind an operand inverts it, `!` before an operand inverts it, `^` is
/// exclusive or, `*`, `&` or nothing between two operands is and, `+` and `|` are or; operators of one
/// strength join from the left. `0` and `1` are constants, and brackets group.
///
/// The first fault from the left is answered: `BadExpr` with the place at which no reading can go on, which
/// is the length where the text ends too early; `UnknownPin` with the place of a name that is no pin;
/// `TooDeep` with the place of the bracket or `!` that would be the 65th open one.
pub fn read_expr(alloc: Global, text: &[u8], pins: &[Name]) -> Result<Expr, ExprFault>
    requires { length pins.now < 2 ^ 32 }
    ensures exact { OrNoMemory NoMemory term_of result (read_text pins.now text.now) }
    ensures found { IfOk result (λ e. ExprText pins.now text.now (term_of e)) }
    ensures fault { IfErr result (IsFirstExprFault pins.now text.now) }
    ensures grammar { (t : Term) → ExprText pins.now text.now t → OrNoMemory NoMemory term_of result (Ok t) }
    ensures over { IfOk result (λ e. IsTrue (is_over (length pins.now) e)) }
    ensures within { IfOk result (λ e. IsTrue (is_within (length pins.now) (term_of e))) }
{
    read(alloc, text, pins)
}

/// Reads an expression token by token.
#[tactic(auto, using(crate::proofs::Readings::faults))]
fn read(alloc: Global, text: &[u8], pins: &[Name]) -> Result<Expr, ExprFault>
    requires { length pins.now < 2 ^ 32 }
    ensures { OrNoMemory NoMemory term_of result (read_text pins.now text.now) }
{
    let mut tokens = Tokens::new(text);
    let mut reading = Reading::new(alloc);
    'tokens: while let Some(token) = tokens.next() {
        after(alloc, pins, &mut reading, token)?;
    }
    end(alloc, reading, text.len())
}

/// Reads one more token.
pub fn after(
    alloc: Global,
    pins: &[Name],
    reading: &mut Reading,
    token: Token<'_>,
) -> Result<(), ExprFault>
    requires { length pins.now < 2 ^ 32 }
    ensures { OrNoMemory NoMemory (λ _. mode_of reading.new.operand reading.new.stack) result
        (step pins.now (mode_of reading.old.operand reading.old.stack) (token_of token.entry)) }
{
    let operand = match reading.operand.take() {
        None => first(pins, &mut reading.stack, token)?,
        Some(operand) => further(alloc, pins, operand, &mut reading.stack, token)?,
    };
    reading.operand = operand;
    Ok(())
}

/// A token where an operand begins. It answers the operand that may be complete then, where there is one.
fn first(pins: &[Name], stack: &mut Stack, token: Token<'_>) -> Result<Option<Expr>, ExprFault>
    requires { length pins.now < 2 ^ 32 }
    ensures { OrNoMemory NoMemory (λ operand. mode_of operand stack.new) result (begin pins.now stack.old (token_of token.entry)) }
{
    match token.kind {
        TokenKind::Word(word) => Ok(Some(word_leaf(pins, token.at, word)?)),
        TokenKind::Not => inversion(stack, token.at),
        TokenKind::Open => bracket(stack, token.at),
        _ => Err(ExprFault::BadExpr(token.at as u64)),
    }
}

/// A sign `!` opens, and an operand must come.
fn inversion(stack: &mut Stack, at: usize) -> Result<Option<Expr>, ExprFault>
    ensures { OrNoMemory NoMemory (λ operand. mode_of operand stack.new) result (opened at Inversion stack.old) }
{
    if stack.nesting() >= MOST_NESTING {
        return Err(ExprFault::TooDeep(at as u64));
    }
    stack.open_inversion()?;
    Ok(None)
}

/// A bracket opens, and an operand must come.
fn bracket(stack: &mut Stack, at: usize) -> Result<Option<Expr>, ExprFault>
    ensures { OrNoMemory NoMemory (λ operand. mode_of operand stack.new) result (opened at Bracket stack.old) }
{
    if stack.nesting() >= MOST_NESTING {
        return Err(ExprFault::TooDeep(at as u64));
    }
    stack.open_bracket()?;
    Ok(None)
}

/// The constant or the pin that a word is.
fn word_leaf(pins: &[Name], at: usize, word: &[u8]) -> Result<Expr, ExprFault>
    requires { length pins.now < 2 ^ 32 }
    ensures { OrNoMemory NoMemory term_of result (leaf pins.now at word.now) }
{
    let first = first_byte(word);
    if is_digit(first) {
        word_constant(at, word)
    } else if is_letter(first) {
        match pin_place(pins, word) {
            Some(place) => Ok(Expr::Variable(place)),
            None => Err(ExprFault::UnknownPin(at as u64)),
        }
    } else {
        Err(ExprFault::BadExpr(at as u64))
    }
}

/// The first byte, or 0 where there is none.
pub fn first_byte(word: &[u8]) -> u8
    ensures { result ≡ slice_index word.now 0 }
{
    match word.first() {
        Some(first) => *first,
        None => 0,
    }
}

/// The constant that a word is.
fn word_constant(at: usize, word: &[u8]) -> Result<Expr, ExprFault>
    ensures { OrNoMemory NoMemory term_of result (constant at word.now) }
{
    if word == b"0".as_slice() {
        Ok(Expr::Constant(false))
    } else if word == b"1".as_slice() {
        Ok(Expr::Constant(true))
    } else {
        Err(ExprFault::BadExpr(at as u64))
    }
}

/// The place of the first pin of that name.
#[tactic(auto, using(crate::proofs::Readings::faults))]
fn pin_place(pins: &[Name], name: &[u8]) -> Option<u32>
    requires { length pins.now < 2 ^ 32 }
    ensures { result ≡ position_from (bytes_eq name.now) 0 pins.now }
{
    'pins: for place in 0..pins.len() {
        if is_named(&pins[place], name) {
            return Some(place as u32);
        }
    }
    None
}

/// Whether a pin has the name.
fn is_named(pin: &Name, name: &[u8]) -> bool
    ensures { result ≡ bytes_eq name.now pin.now }
{
    name == pin.bytes()
}

/// A token behind an operand. It answers the operand that may be complete then, where there is one.
fn further(
    alloc: Global,
    pins: &[Name],
    operand: Expr,
    stack: &mut Stack,
    token: Token<'_>,
) -> Result<Option<Expr>, ExprFault>
    requires { length pins.now < 2 ^ 32 }
    ensures { OrNoMemory NoMemory (λ operand. mode_of operand stack.new) result (go_on pins.now (term_of operand) stack.old (token_of token.entry)) }
{
    match token.kind {
        TokenKind::Prime => Ok(Some(inverse(alloc, operand)?)),
        TokenKind::Close => close(alloc, operand, stack, token.at),
        TokenKind::Other => {
            // By a call, as its parts would else be dropped one by one in the proof.
            drop(operand);
            Err(ExprFault::BadExpr(token.at as u64))
        }
        TokenKind::Xor => {
            left_of_xor(alloc, operand, stack)?;
            Ok(None)
        }
        TokenKind::And => {
            left_of_and(alloc, operand, stack)?;
            Ok(None)
        }
        TokenKind::Or => {
            left_of_or(alloc, operand, stack)?;
            Ok(None)
        }
        _ => {
            left_of_and(alloc, operand, stack)?;
            first(pins, stack, token)
        }
    }
}

/// What ends with this operand waits as the left operand of an exclusive or.
fn left_of_xor(alloc: Global, operand: Expr, stack: &mut Stack) -> Result<(), AllocError>
    ensures { OnOk result (stack.new ≡ XorLeft (xor_end (term_of operand) stack.old).term ∷ (xor_end (term_of operand) stack.old).pending) }
{
    let operand = end_xor(alloc, operand, stack)?;
    stack.wait_xor(operand)
}

/// What ends with this operand waits as the left operand of an and.
fn left_of_and(alloc: Global, operand: Expr, stack: &mut Stack) -> Result<(), AllocError>
    ensures { OnOk result (stack.new ≡ AndLeft (and_end (term_of operand) stack.old).term ∷ (and_end (term_of operand) stack.old).pending) }
{
    let operand = end_and(alloc, operand, stack)?;
    stack.wait_and(operand)
}

/// What ends with this operand waits as the left operand of an or.
fn left_of_or(alloc: Global, operand: Expr, stack: &mut Stack) -> Result<(), AllocError>
    ensures { OnOk result (stack.new ≡ OrLeft (or_end (term_of operand) stack.old).term ∷ (or_end (term_of operand) stack.old).pending) }
{
    let operand = end_or(alloc, operand, stack)?;
    stack.wait_or(operand)
}

/// A bracket closes, where one is open. It answers what stands in it.
fn close(
    alloc: Global,
    operand: Expr,
    stack: &mut Stack,
    at: usize,
) -> Result<Option<Expr>, ExprFault>
    ensures { OrNoMemory NoMemory (λ operand. mode_of operand stack.new) result (closed at (or_end (term_of operand) stack.old)) }
{
    let operand = end_or(alloc, operand, stack)?;
    if !stack.ends_in_bracket() {
        drop(operand);
        return Err(ExprFault::BadExpr(at as u64));
    }
    stack.close_bracket();
    Ok(Some(operand))
}

/// The end of the text, which has that many bytes.
pub fn end(alloc: Global, reading: Reading, length: usize) -> Result<Expr, ExprFault>
    ensures { OrNoMemory NoMemory term_of result (finish length (mode_of reading.operand reading.stack)) }
{
    let Reading { operand, stack } = reading;
    match operand {
        None => {
            drop(stack);
            Err(ExprFault::BadExpr(length as u64))
        }
        Some(operand) => complete(alloc, operand, stack, length),
    }
}

/// The whole expression, where nothing waits any more.
fn complete(alloc: Global, operand: Expr, stack: Stack, length: usize) -> Result<Expr, ExprFault>
    ensures { OrNoMemory NoMemory term_of result (complete length (or_end (term_of operand) stack)) }
{
    let mut stack = stack;
    let operand = end_or(alloc, operand, &mut stack)?;
    if !stack.is_empty() {
        drop(operand);
        return Err(ExprFault::BadExpr(length as u64));
    }
    Ok(operand)
}
