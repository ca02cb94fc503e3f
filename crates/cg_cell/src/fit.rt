//! Which cells fit a need of clock gating.

ghost use Rattle.std.specs.Prelude.{◌≡◌, true, false, IsTrue, IfSome, MatchOption};
ghost use Rattle.cg_cell.specs.Expr.{is_over, term_of};
ghost use Rattle.cg_cell.specs.Fit.{is_fit, is_gate, is_gater};

use crate::cell::{CellKind, CellType};
use crate::expr::Expr;

/// A kind of cell that clock gating needs.
#[derive(Clone, Copy, Debug, PartialEq, Eq)]
pub enum FitKind {
    /// A gating cell without a test input.
    Gater,

    /// A gating cell with a test input.
    TestGater,

    /// A Logic cell of one input whose truth table is inversion.
    Inv,

    /// A Logic cell of two inputs whose truth table is and.
    And2,

    /// A Logic cell of two inputs whose truth table is or.
    Or2,
}

/// Whether the cell is of that kind.
pub fn fits(cell: &CellType, kind: FitKind) -> bool
    ensures { result ≡ is_fit kind cell.now }
{
    match kind {
        FitKind::Gater => is_gater(cell) && !cell.has_test(),
        FitKind::TestGater => is_gater(cell) && cell.has_test(),
        FitKind::Inv => is_inverter(cell),
        FitKind::And2 => is_and(cell),
        FitKind::Or2 => is_or(cell),
    }
}

/// Whether the cell is a gating cell.
fn is_gater(cell: &CellType) -> bool
    ensures { result ≡ is_gater cell.now.kind }
{
    match cell.kind() {
        CellKind::Gater => true,
        _ => false,
    }
}

/// Whether the truth table of the cell is inversion.
fn is_inverter(cell: &CellType) -> bool
    ensures { result ≡ is_fit FitKind.Inv cell.now }
{
    match gate(cell, 1) {
        None => false,
        Some(function) => function.value(&[false]) && !function.value(&[true]),
    }
}

/// Whether the truth table of the cell is and.
fn is_and(cell: &CellType) -> bool
    ensures { result ≡ is_fit FitKind.And2 cell.now }
{
    match gate(cell, 2) {
        None => false,
        Some(function) => {
            !function.value(&[false, false])
                && !function.value(&[false, true])
                && !function.value(&[true, false])
                && function.value(&[true, true])
        }
    }
}

/// Whether the truth table of the cell is or.
fn is_or(cell: &CellType) -> bool
    ensures { result ≡ is_fit FitKind.Or2 cell.now }
{
    match gate(cell, 2) {
        None => false,
        Some(function) => {
            !function.value(&[false, false])
                && function.value(&[false, true])
                && function.value(&[true, false])
                && function.value(&[true, true])
        }
    }
}

/// The function of a Logic cell that has so many inputs.
fn gate(cell: &CellType, inputs: usize) -> Option<&Expr>
    ensures gate { MatchOption result (is_gate inputs cell.now ≡ false) (λ f. is_gate inputs cell.now ≡ true) }
    ensures function { IfSome result (λ f. cell.now.function ≡ Some (term_of f.now)) }
    ensures over { IfSome result (λ f. IsTrue (is_over inputs f.now)) }
{
    match cell.kind() {
        CellKind::Logic => {
            if cell.inputs() == inputs {
                cell.function()
            } else {
                None
            }
        }
        _ => None,
    }
}
