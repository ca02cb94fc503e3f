//! The evaluation of covers over any domain.

ghost use Rattle.std.specs.Prelude.{◌≡◌, ◌<◌, ℕ, IsTrue, IfOk, IfErr, OnErr, length, map};
ghost use Rattle.std.specs.List.{AllByRecursion};
ghost use Rattle.cg_cell.specs.Domain.{AreValid, Keeps};
ghost use Rattle.cg_cell.specs.Build.{Evaluates, Stops};
ghost use Rattle.cg_cell.specs.Cover.{CoverFits, cover_value};
ghost use Rattle.cg_cell.specs.Term.{term_value};
ghost use Rattle.cg_cell.specs.Eval.{bits_at, build_term};
ghost use Rattle.cg_cell.specs.EvalCover.{build_on, build_place, cover_term, given_term, on_bit, place_bit, row_term, rows_term};

use crate::build;
use crate::cover::Cover;
use crate::domain::Domain;
use crate::rows::CoverRows;

impl Cover {
    /// The value of the cover over a domain, where `inputs` has a value for each of its inputs.
    ///
    /// It stands for the cover's bit under every assignment. A row is the `and` of its given bits from the
    /// left, beginning with 1, where a given 0 is the inverted input; the cover is the `or` of its rows from
    /// the left, beginning with 0, inverted at the end where its value on them is 0. The call is refused
    /// where an `and` of these is, and leaves the domain as it was before that `and`.
    pub fn eval<D: Domain>(&self, domain: &mut D, inputs: &[D::Value]) -> Result<D::Value, D::Fault>
        requires wide { CoverFits (length inputs.now) self.now }
        requires valid { AreValid D.ops (D.seen domain.old) (map D.number inputs.now) }
        ensures built { IfOk result (λ v. Evaluates D.ops (D.seen domain.old) (D.seen domain.new) (D.number v)
            (build_term D.ops (map D.number inputs.now) (cover_term self.now) (D.seen domain.old))
            (λ bits. cover_value self.now (bits_at D.ops (D.seen domain.old) (map D.number inputs.now) bits))) }
        ensures stopped { IfErr result (λ fault. Stops D.refuses
            (build_term D.ops (map D.number inputs.now) (cover_term self.now) (D.seen domain.old)) fault (D.seen domain.new)) }
        ensures kept { OnErr result (Keeps D.ops (D.seen domain.old) (D.seen domain.new)) }
    {
        let any = eval_rows(self.rows(), domain, inputs)?;
        Ok(eval_on(self.on(), any, domain))
    }
}

/// The value where the rows' value is 1, and its inverse where that is 0.
fn eval_on<D: Domain>(on: bool, any: D::Value, domain: &mut D) -> D::Value
    requires { IsTrue (D.ops.is_valid (D.seen domain.old) (D.number any)) }
    ensures { Evaluates D.ops (D.seen domain.old) (D.seen domain.new) (D.number result)
        (build_on D.ops on (D.number any) (D.seen domain.old)) (λ bits. on_bit on (D.ops.bit (D.seen domain.old) bits (D.number any))) }
{
    if on { any } else { domain.not(any) }
}

/// The or of rows, beginning with 0.
fn eval_rows<D: Domain>(
    rows: &CoverRows,
    domain: &mut D,
    inputs: &[D::Value],
) -> Result<D::Value, D::Fault>
    requires wide { AllByRecursion (λ row. length row ≡ length inputs.now) rows.now }
    requires valid { AreValid D.ops (D.seen domain.old) (map D.number inputs.now) }
    ensures built { IfOk result (λ v. Evaluates D.ops (D.seen domain.old) (D.seen domain.new) (D.number v)
        (build_term D.ops (map D.number inputs.now) (rows_term rows.now) (D.seen domain.old))
        (λ bits. term_value (bits_at D.ops (D.seen domain.old) (map D.number inputs.now) bits) (rows_term rows.now))) }
    ensures stopped { IfErr result (λ fault. Stops D.refuses
        (build_term D.ops (map D.number inputs.now) (rows_term rows.now) (D.seen domain.old)) fault (D.seen domain.new)) }
    ensures kept { OnErr result (Keeps D.ops (D.seen domain.old) (D.seen domain.new)) }
{
    let mut answer = domain.constant(false);
    'rows: for k in 0..rows.len() {
        let next = eval_row(rows.row(k), domain, inputs)?;
        answer = build::or(domain, answer, next)?;
    }
    Ok(answer)
}

/// The and of a row's given bits, beginning with 1.
fn eval_row<D: Domain>(
    row: &[Option<bool>],
    domain: &mut D,
    inputs: &[D::Value],
) -> Result<D::Value, D::Fault>
    requires wide { length row.now ≡ length inputs.now }
    requires valid { AreValid D.ops (D.seen domain.old) (map D.number inputs.now) }
    ensures built { IfOk result (λ v. Evaluates D.ops (D.seen domain.old) (D.seen domain.new) (D.number v)
        (build_term D.ops (map D.number inputs.now) (row_term row.now) (D.seen domain.old))
        (λ bits. term_value (bits_at D.ops (D.seen domain.old) (map D.number inputs.now) bits) (row_term row.now))) }
    ensures stopped { IfErr result (λ fault. Stops D.refuses
        (build_term D.ops (map D.number inputs.now) (row_term row.now) (D.seen domain.old)) fault (D.seen domain.new)) }
    ensures kept { OnErr result (Keeps D.ops (D.seen domain.old) (D.seen domain.new)) }
{
    let mut answer = domain.constant(true);
    'places: for k in 0..row.len() {
        answer = eval_place(row[k], k, answer, domain, inputs)?;
    }
    Ok(answer)
}

/// A place of a row, joined to those before it.
fn eval_place<D: Domain>(
    place: Option<bool>,
    k: usize,
    answer: D::Value,
    domain: &mut D,
    inputs: &[D::Value],
) -> Result<D::Value, D::Fault>
    requires below { k < length inputs.now }
    requires answer { IsTrue (D.ops.is_valid (D.seen domain.old) (D.number answer)) }
    requires valid { AreValid D.ops (D.seen domain.old) (map D.number inputs.now) }
    ensures built { IfOk result (λ v. Evaluates D.ops (D.seen domain.old) (D.seen domain.new) (D.number v)
        (build_place D.ops (map D.number inputs.now) k place (D.number answer) (D.seen domain.old))
        (λ bits. place_bit k place (D.ops.bit (D.seen domain.old) bits (D.number answer))
        (bits_at D.ops (D.seen domain.old) (map D.number inputs.now) bits))) }
    ensures stopped { IfErr result (λ fault. Stops D.refuses
        (build_place D.ops (map D.number inputs.now) k place (D.number answer) (D.seen domain.old)) fault (D.seen domain.new)) }
    ensures kept { OnErr result (Keeps D.ops (D.seen domain.old) (D.seen domain.new)) }
{
    match place {
        None => Ok(answer),
        Some(bit) => {
            let given = eval_given(bit, k, domain, inputs);
            build::and(domain, answer, given)
        }
    }
}

/// A given bit of a row: the input, or its inverse.
fn eval_given<D: Domain>(bit: bool, k: usize, domain: &mut D, inputs: &[D::Value]) -> D::Value
    requires below { k < length inputs.now }
    requires valid { AreValid D.ops (D.seen domain.old) (map D.number inputs.now) }
    ensures { Evaluates D.ops (D.seen domain.old) (D.seen domain.new) (D.number result)
        (build_term D.ops (map D.number inputs.now) (given_term k bit) (D.seen domain.old))
        (λ bits. term_value (bits_at D.ops (D.seen domain.old) (map D.number inputs.now) bits) (given_term k bit)) }
{
    let input = inputs[k];
    if bit { input } else { domain.not(input) }
}
