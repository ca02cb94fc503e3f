//! Functions built into a list.

ghost use Rattle.std.specs.Prelude.{IfOk, IfErr, IsTrue, OnErr, length};
ghost use Rattle.cg_cell.specs.Build.{Evaluates, Stops};
ghost use Rattle.cg_cell.specs.Cover.{CoverFits, cover_value};
ghost use Rattle.cg_cell.specs.Domain.{AreValid, Keeps};
ghost use Rattle.cg_cell.specs.Eval.{bits_at, build_term};
ghost use Rattle.cg_cell.specs.EvalCover.{cover_term};
ghost use Rattle.cg_cell.specs.Expr.{is_over, term_of};
ghost use Rattle.cg_cell.specs.Term.{term_value};
ghost use Rattle.cg_aig.specs.Aig.{aig_ops};
ghost use Rattle.cg_aig.specs.Limits.{AndRefuses};

use crate::fault::AigFault;
use crate::list::Aig;
use crate::lit::AigLit;
use cg_cell::cover::Cover;
use cg_cell::expr::Expr;

impl Aig {
    /// The literal of an expression, where `inputs` has a literal for each of its variables.
    ///
    /// The operators are built in their order: the left operand, the right one, and then the operator. It is
    /// refused where an `and` of these is, and the nodes that were made before stay.
    pub fn expression(&mut self, expr: &Expr, inputs: &[AigLit]) -> Result<AigLit, AigFault>
        requires over { IsTrue (is_over (length inputs.now) expr.now) }
        requires valid { AreValid aig_ops self.old inputs.now }
        ensures built { IfOk result (λ v. Evaluates aig_ops self.old self.new v
            (build_term aig_ops inputs.now (term_of expr.now) self.old)
            (λ bits. term_value (bits_at aig_ops self.old inputs.now bits) (term_of expr.now))) }
        ensures stopped { IfErr result (λ fault. Stops AndRefuses
            (build_term aig_ops inputs.now (term_of expr.now) self.old) fault self.new) }
        ensures kept { OnErr result (Keeps aig_ops self.old self.new) }
    {
        expr.eval(self, inputs)
    }

    /// The literal of a cover, where `inputs` has a literal for each of its inputs.
    ///
    /// A row is the `and` of its given bits from the left, beginning with 1; the cover is the `or` of its rows
    /// from the left, beginning with 0, inverted at the end where its value on them is 0. It is refused where
    /// an `and` of these is, and the nodes that were made before stay.
    pub fn cover(&mut self, cover: &Cover, inputs: &[AigLit]) -> Result<AigLit, AigFault>
        requires wide { CoverFits (length inputs.now) cover.now }
        requires valid { AreValid aig_ops self.old inputs.now }
        ensures built { IfOk result (λ v. Evaluates aig_ops self.old self.new v
            (build_term aig_ops inputs.now (cover_term cover.now) self.old)
            (λ bits. cover_value cover.now (bits_at aig_ops self.old inputs.now bits))) }
        ensures stopped { IfErr result (λ fault. Stops AndRefuses
            (build_term aig_ops inputs.now (cover_term cover.now) self.old) fault self.new) }
        ensures kept { OnErr result (Keeps aig_ops self.old self.new) }
    {
        cover.eval(self, inputs)
    }
}
