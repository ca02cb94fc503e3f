//! Expressions that are one variable and nothing else.

ghost use Rattle.std.specs.Prelude.{◌≡◌};
ghost use Rattle.cg_cell.specs.Expr.{term_of, terms_of};
ghost use Rattle.cg_cell.specs.Term.{lone_among, lone_input};

use crate::expr::Expr;

impl Expr {
    /// The variable, where the expression is one variable and nothing else, brackets aside.
    pub fn only(&self) -> Option<u32>
        ensures { result ≡ lone_input (term_of self.now) }
    {
        lone_variable(self)
    }
}

/// The variable, where the expression is one variable and nothing else.
#[cycle(lone)]
#[tactic(auto, using(crate::proofs::LoneInputs::alone))]
fn lone_variable(expr: &Expr) -> Option<u32>
    ensures { result ≡ lone_input (term_of expr.now) }
{
    match expr {
        Expr::Constant(_) => None,
        Expr::Variable(k) => Some(*k),
        Expr::Not(signs, operand) => {
            if *signs == 0 {
                lone_variable(operand)
            } else {
                None
            }
        }
        Expr::And(operands) => lone_operand(operands),
        Expr::Or(operands) => lone_operand(operands),
        Expr::Xor(operands) => lone_operand(operands),
    }
}

/// The variable, where there is one operand and it is one variable.
#[cycle(lone)]
fn lone_operand(operands: &[Expr]) -> Option<u32>
    ensures { result ≡ lone_among (terms_of operands.now) }
{
    match operands {
        [operand] => lone_variable(operand),
        _ => None,
    }
}
