//! The function of a register over its own pins.

ghost use Rattle.std.specs.Prelude.{◌≡◌, ◌≤◌, IfOk, map};
ghost use Rattle.cg_cell.specs.Expr.{term_of, terms_of};
ghost use Rattle.cg_liberty.specs.Kinds.{restated, slot};

use cg_cell::expr::Expr;
use std::alloc::{AllocError, Global};

/// How the inputs of a `next_state` are numbered: the input pins, among them the clock, then the state,
/// then its inverse.
#[derive(Clone, Copy)]
pub struct Numbering {
    /// How many input pins there are.
    pub inputs: u32,

    /// Which of them is the clock.
    pub clock: u32,
}

/// What stands in the cell's function for input `k` of a `next_state`.
fn slot_of(alloc: Global, numbering: Numbering, k: u32) -> Result<Expr, AllocError>
    requires least { 1 ≤ numbering.inputs }
    requires most { numbering.inputs ≤ 16 }
    ensures { IfOk result (λ e. term_of e ≡ slot numbering.inputs numbering.clock k) }
{
    if k == numbering.inputs + 1 {
        let own = Box::new(alloc, Expr::Variable(numbering.inputs - 1))?;
        return Ok(Expr::Not(1, own));
    }
    if numbering.clock < k {
        return Ok(Expr::Variable(k - 1));
    }
    Ok(Expr::Variable(k))
}

/// A `next_state` as the function of the cell: over the input pins without the clock, and the
/// register's own bit behind them.
#[cycle(restate)]
#[tactic(auto, using(crate::proofs::Restated::steps))]
pub fn restate(alloc: Global, expr: &Expr, numbering: Numbering) -> Result<Expr, AllocError>
    requires least { 1 ≤ numbering.inputs }
    requires most { numbering.inputs ≤ 16 }
    ensures { IfOk result (λ e. term_of e ≡ restated numbering.inputs numbering.clock (term_of expr.now)) }
{
    match expr {
        Expr::Constant(bit) => Ok(Expr::Constant(*bit)),
        Expr::Variable(k) => slot_of(alloc, numbering, *k),
        Expr::Not(signs, operand) => {
            let inner = restate(alloc, operand, numbering)?;
            let boxed = Box::new(alloc, inner)?;
            Ok(Expr::Not(*signs, boxed))
        }
        Expr::And(operands) => Ok(Expr::And(restate_all(alloc, operands, numbering)?)),
        Expr::Or(operands) => Ok(Expr::Or(restate_all(alloc, operands, numbering)?)),
        Expr::Xor(operands) => Ok(Expr::Xor(restate_all(alloc, operands, numbering)?)),
    }
}

/// Each operand of a level, over the register's own pins.
#[cycle(restate)]
fn restate_all(
    alloc: Global,
    operands: &[Expr],
    numbering: Numbering,
) -> Result<Vec<Expr>, AllocError>
    requires least { 1 ≤ numbering.inputs }
    requires most { numbering.inputs ≤ 16 }
    ensures { IfOk result (λ copies. terms_of copies.items ≡ map (restated numbering.inputs numbering.clock) (terms_of operands.now)) }
{
    let mut restated = Vec::with_capacity(alloc, operands.len())?;
    'operands: for operand in operands {
        let copy = restate(alloc, operand, numbering)?;
        restated.push(copy)?;
    }
    Ok(restated)
}
