//! Operators on expressions, which keep the operands of one level in one list.

ghost use Rattle.std.specs.Prelude.{◌≡◌, ◌<◌, IfOk, [], ◌∷◌, length};
ghost use Rattle.cg_cell.specs.Expr.{term_of, terms_of};
ghost use Rattle.cg_cell.specs.Term.{Bit, Both, Differ, Either, Inverse, Term, inverse_times, join_all};

use cg_cell::expr::Expr;
use std::alloc::{AllocError, Global};

/// The expression, inverted once more. A run of signs is one node with its length.
pub fn inverse(alloc: Global, operand: Expr) -> Result<Expr, AllocError>
    ensures { IfOk result (λ e. term_of e ≡ Inverse (term_of operand)) }
{
    match operand {
        Expr::Not(signs, inner) => inverted_again(alloc, signs, inner),
        other => Ok(Expr::Not(1, Box::new(alloc, other)?)),
    }
}

/// One more sign on a run of signs.
fn inverted_again(alloc: Global, signs: u64, operand: Box<Expr>) -> Result<Expr, AllocError>
    ensures { IfOk result (λ e. term_of e ≡ Inverse (inverse_times signs (term_of operand.value))) }
{
    if signs < u64::MAX {
        Ok(Expr::Not(signs + 1, operand))
    } else {
        Ok(Expr::Not(1, Box::new(alloc, Expr::Not(signs, operand))?))
    }
}

/// The and of two expressions.
pub fn both(alloc: Global, left: Expr, right: Expr) -> Result<Expr, AllocError>
    ensures { IfOk result (λ e. term_of e ≡ Both (term_of left) (term_of right)) }
{
    match left {
        Expr::And(operands) => Ok(Expr::And(followed(operands, true, right)?)),
        other => Ok(Expr::And(pair(alloc, other, right)?)),
    }
}

/// The or of two expressions.
pub fn either(alloc: Global, left: Expr, right: Expr) -> Result<Expr, AllocError>
    ensures { IfOk result (λ e. term_of e ≡ Either (term_of left) (term_of right)) }
{
    match left {
        Expr::Or(operands) => Ok(Expr::Or(followed(operands, false, right)?)),
        other => Ok(Expr::Or(pair(alloc, other, right)?)),
    }
}

/// The exclusive or of two expressions.
pub fn one_of(alloc: Global, left: Expr, right: Expr) -> Result<Expr, AllocError>
    ensures { IfOk result (λ e. term_of e ≡ Differ (term_of left) (term_of right)) }
{
    match left {
        Expr::Xor(operands) => Ok(Expr::Xor(followed(operands, false, right)?)),
        other => Ok(Expr::Xor(pair(alloc, other, right)?)),
    }
}

/// The operands of a level with one more behind them.
#[tactic(auto, using(crate::proofs::Joins::joins))]
fn followed(operands: Vec<Expr>, none: bool, right: Expr) -> Result<Vec<Expr>, AllocError>
    ensures { IfOk result (λ v. (operator : Term → Term → Term)
        → join_all operator (Bit none) (terms_of v.items) ≡ operator (join_all operator (Bit none) (terms_of operands.items)) (term_of right)) }
{
    let mut operands = filled(operands, none)?;
    operands.push(right)?;
    Ok(operands)
}

/// The operands of a level; one without operands is the constant.
fn filled(operands: Vec<Expr>, none: bool) -> Result<Vec<Expr>, AllocError>
    ensures full { IfOk result (λ v. 0 < length v.items) }
    ensures same { IfOk result (λ v. (operator : Term → Term → Term)
        → join_all operator (Bit none) (terms_of v.items) ≡ join_all operator (Bit none) (terms_of operands.items)) }
{
    if operands.is_empty() {
        let mut constant = operands;
        constant.push(Expr::Constant(none))?;
        Ok(constant)
    } else {
        Ok(operands)
    }
}

/// Two operands.
fn pair(alloc: Global, left: Expr, right: Expr) -> Result<Vec<Expr>, AllocError>
    ensures { IfOk result (λ v. v.items ≡ left ∷ right ∷ []) }
{
    Ok(Vec::from_array(alloc, [left, right])?)
}
