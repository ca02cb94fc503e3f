//! The evaluation over truth values: it is the function's bit, and nothing is ever refused.

ghost use Rattle.std.specs.Prelude.{◌≡◌, IsTrue, length};
ghost use Rattle.cg_cell.specs.Cover.{CoverFits, cover_value};
ghost use Rattle.cg_cell.specs.Expr.{expr_value, is_over};

use crate::cover::Cover;
use crate::domain::Bits;
use crate::expr::Expr;

impl Expr {
    /// The bit that [`Expr::eval`] gives over truth values: the expression's value on these bits.
    pub fn eval_bits(&self, bits: &[bool]) -> bool
        requires { IsTrue (is_over (length bits.now) self.now) }
        ensures { result ≡ expr_value bits.now self.now }
    {
        match self.eval(&mut Bits, bits) {
            Ok(bit) => bit,
        }
    }
}

impl Cover {
    /// The bit that [`Cover::eval`] gives over truth values: the cover's value on these bits.
    pub fn eval_bits(&self, bits: &[bool]) -> bool
        requires { CoverFits (length bits.now) self.now }
        ensures { result ≡ cover_value self.now bits.now }
    {
        match self.eval(&mut Bits, bits) {
            Ok(bit) => bit,
        }
    }
}
