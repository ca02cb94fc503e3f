//! The evaluation of expressions over any domain.

ghost use Rattle.std.specs.Prelude.{◌≡◌, ℕ, Bool, ◌&&◌, not, IsTrue, IfOk, IfErr, OnErr, length, map, option_map};
ghost use Rattle.cg_cell.specs.Domain.{AreValid, Keeps};
ghost use Rattle.cg_cell.specs.Build.{Evaluates, Stops};
ghost use Rattle.cg_cell.specs.Gates.{inverted};
ghost use Rattle.cg_cell.specs.Expr.{all_over, is_over, term_of, terms_of};
ghost use Rattle.cg_cell.specs.Term.{term_value};
ghost use Rattle.cg_cell.specs.Eval.{IsValidIfAny, bits_at, build_inverses, build_joined, build_term, joined_bit, operator_none};
ghost use Rattle.cg_cell.specs.Eval.{so_far};

use crate::build;
use crate::domain::Domain;
use crate::expr::Expr;

/// An operator of any number of operands.
#[derive(Clone, Copy)]
enum Operator {
    And,
    Or,
    Xor,
}

/// The value, inverted once for each sign.
fn invert<D: Domain>(signs: u64, a: D::Value, domain: &mut D) -> D::Value
    requires { IsTrue (D.ops.is_valid (D.seen domain.old) (D.number a)) }
    ensures { Evaluates D.ops (D.seen domain.old) (D.seen domain.new) (D.number result)
        (build_inverses D.ops signs (D.number a) (D.seen domain.old))
        (λ bits. inverted signs (D.ops.bit (D.seen domain.old) bits (D.number a))) }
{
    let mut answer = a;
    'signs: for _ in 0..signs {
        answer = domain.not(answer);
    }
    answer
}

/// One more operand, joined to what is there by the operator.
fn join<D: Domain>(
    operator: Operator,
    answer: Option<D::Value>,
    b: D::Value,
    domain: &mut D,
) -> Result<D::Value, D::Fault>
    requires left { IsValidIfAny D.ops (D.seen domain.old) (option_map D.number answer) }
    requires right { IsTrue (D.ops.is_valid (D.seen domain.old) (D.number b)) }
    ensures built { IfOk result (λ v. Evaluates D.ops (D.seen domain.old) (D.seen domain.new) (D.number v)
        (build_joined D.ops operator (option_map D.number answer) (D.number b) (D.seen domain.old))
        (λ bits. joined_bit operator (option_map (λ a. D.ops.bit (D.seen domain.old) bits (D.number a)) answer)
        (D.ops.bit (D.seen domain.old) bits (D.number b)))) }
    ensures stopped { IfErr result (λ fault. Stops D.refuses
        (build_joined D.ops operator (option_map D.number answer) (D.number b) (D.seen domain.old)) fault (D.seen domain.new)) }
    ensures kept { OnErr result (Keeps D.ops (D.seen domain.old) (D.seen domain.new)) }
{
    match answer {
        None => Ok(b),
        Some(a) => match operator {
            Operator::And => build::and(domain, a, b),
            Operator::Or => build::or(domain, a, b),
            Operator::Xor => build::xor(domain, a, b),
        },
    }
}

/// What an operator gives of no operands.
fn of_none(operator: Operator) -> bool
    ensures { result ≡ operator_none operator }
{
    match operator {
        Operator::And => true,
        Operator::Or | Operator::Xor => false,
    }
}

impl Expr {
    /// The value of the expression over a domain, where `inputs` has a value for each of its variables.
    ///
    /// It stands for the expression's bit under every assignment. The operators are built in their order: the
    /// left operand, the right one, and then the operator. The call is refused where an `and` of these is,
    /// and leaves the domain as it was before that `and`.
    #[cycle(eval)]
    pub fn eval<D: Domain>(&self, domain: &mut D, inputs: &[D::Value]) -> Result<D::Value, D::Fault>
        requires over { IsTrue (is_over (length inputs.now) self.now) }
        requires valid { AreValid D.ops (D.seen domain.old) (map D.number inputs.now) }
        ensures built { IfOk result (λ v. Evaluates D.ops (D.seen domain.old) (D.seen domain.new) (D.number v)
            (build_term D.ops (map D.number inputs.now) (term_of self.now) (D.seen domain.old))
            (λ bits. term_value (bits_at D.ops (D.seen domain.old) (map D.number inputs.now) bits) (term_of self.now))) }
        ensures stopped { IfErr result (λ fault. Stops D.refuses
            (build_term D.ops (map D.number inputs.now) (term_of self.now) (D.seen domain.old)) fault (D.seen domain.new)) }
        ensures kept { OnErr result (Keeps D.ops (D.seen domain.old) (D.seen domain.new)) }
    {
        match self {
            Expr::Constant(bit) => Ok(domain.constant(*bit)),
            Expr::Variable(k) => Ok(inputs[*k as usize]),
            Expr::Not(signs, operand) => {
                let a = operand.eval(domain, inputs)?;
                Ok(invert(*signs, a, domain))
            }
            Expr::And(operands) => eval_all(Operator::And, operands, domain, inputs),
            Expr::Or(operands) => eval_all(Operator::Or, operands, domain, inputs),
            Expr::Xor(operands) => eval_all(Operator::Xor, operands, domain, inputs),
        }
    }
}

/// The value of the operands of one level, joined by their operator from the left.
#[cycle(eval)]
fn eval_all<D: Domain>(
    operator: Operator,
    operands: &[Expr],
    domain: &mut D,
    inputs: &[D::Value],
) -> Result<D::Value, D::Fault>
    requires over { IsTrue (all_over (length inputs.now) operands.now) }
    requires valid { AreValid D.ops (D.seen domain.old) (map D.number inputs.now) }
    ensures built { IfOk result (λ v. Evaluates D.ops (D.seen domain.old) (D.seen domain.new) (D.number v)
        (build_term D.ops (map D.number inputs.now) (so_far operator (terms_of operands.now)) (D.seen domain.old))
        (λ bits. term_value (bits_at D.ops (D.seen domain.old) (map D.number inputs.now) bits) (so_far operator (terms_of operands.now)))) }
    ensures stopped { IfErr result (λ fault. Stops D.refuses
        (build_term D.ops (map D.number inputs.now) (so_far operator (terms_of operands.now)) (D.seen domain.old)) fault (D.seen domain.new)) }
    ensures kept { OnErr result (Keeps D.ops (D.seen domain.old) (D.seen domain.new)) }
{
    let mut answer = None;
    'operands: for operand in operands {
        let b = operand.eval(domain, inputs)?;
        answer = Some(join(operator, answer, b, domain)?);
    }
    match answer {
        None => Ok(domain.constant(of_none(operator))),
        Some(a) => Ok(a),
    }
}
