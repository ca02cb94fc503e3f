//! Operations that are built from `not` and `and`, over any domain.
//!
//! The order in which the inner operations are made is fixed, since a domain that keeps a list of nodes
//! shows it.

ghost use Rattle.std.specs.Prelude.{not, ◌&&◌, ◌||◌, if◌then◌else◌, IsTrue, IfOk, IfErr, OnErr};
ghost use Rattle.cg_cell.specs.Domain.{Keeps};
ghost use Rattle.cg_cell.specs.Gates.{exclusive_or};
ghost use Rattle.cg_cell.specs.Build.{build_and, build_or, build_xor, build_mux, Evaluates, Stops};

use crate::domain::Domain;

/// The value that is 1 where both are: the domain's own operation, told as the others are.
pub fn and<D: Domain>(domain: &mut D, a: D::Value, b: D::Value) -> Result<D::Value, D::Fault>
    requires left { IsTrue (D.ops.is_valid (D.seen domain.old) (D.number a)) }
    requires right { IsTrue (D.ops.is_valid (D.seen domain.old) (D.number b)) }
    ensures built { IfOk result (λ v. Evaluates D.ops (D.seen domain.old) (D.seen domain.new) (D.number v)
        (build_and D.ops (D.number a) (D.number b) (D.seen domain.old))
        (λ bits. D.ops.bit (D.seen domain.old) bits (D.number a) && D.ops.bit (D.seen domain.old) bits (D.number b))) }
    ensures stopped { IfErr result (λ fault. Stops D.refuses
        (build_and D.ops (D.number a) (D.number b) (D.seen domain.old)) fault (D.seen domain.new)) }
    ensures kept { OnErr result (Keeps D.ops (D.seen domain.old) (D.seen domain.new)) }
{
    domain.and(a, b)
}

/// The value that is 1 where `a` or `b` is, built as `not and(not a, not b)`.
///
/// It is refused where the inner `and` is, and leaves the domain as it was before that `and`.
pub fn or<D: Domain>(domain: &mut D, a: D::Value, b: D::Value) -> Result<D::Value, D::Fault>
    requires left { IsTrue (D.ops.is_valid (D.seen domain.old) (D.number a)) }
    requires right { IsTrue (D.ops.is_valid (D.seen domain.old) (D.number b)) }
    ensures built { IfOk result (λ v. Evaluates D.ops (D.seen domain.old) (D.seen domain.new) (D.number v)
        (build_or D.ops (D.number a) (D.number b) (D.seen domain.old))
        (λ bits. D.ops.bit (D.seen domain.old) bits (D.number a) || D.ops.bit (D.seen domain.old) bits (D.number b))) }
    ensures stopped { IfErr result (λ fault. Stops D.refuses
        (build_or D.ops (D.number a) (D.number b) (D.seen domain.old)) fault (D.seen domain.new)) }
    ensures kept { OnErr result (Keeps D.ops (D.seen domain.old) (D.seen domain.new)) }
{
    let not_a = domain.not(a);
    let not_b = domain.not(b);
    let neither = domain.and(not_a, not_b)?;
    Ok(domain.not(neither))
}

/// The value that is 1 where exactly one of `a` and `b` is, built as `or(and(a, not b), and(not a, b))`
/// with the left side first.
///
/// It is refused where an `and` of these is, and leaves the domain as it was before that `and`.
pub fn xor<D: Domain>(domain: &mut D, a: D::Value, b: D::Value) -> Result<D::Value, D::Fault>
    requires left { IsTrue (D.ops.is_valid (D.seen domain.old) (D.number a)) }
    requires right { IsTrue (D.ops.is_valid (D.seen domain.old) (D.number b)) }
    ensures built { IfOk result (λ v. Evaluates D.ops (D.seen domain.old) (D.seen domain.new) (D.number v)
        (build_xor D.ops (D.number a) (D.number b) (D.seen domain.old))
        (λ bits. exclusive_or (D.ops.bit (D.seen domain.old) bits (D.number a)) (D.ops.bit (D.seen domain.old) bits (D.number b)))) }
    ensures stopped { IfErr result (λ fault. Stops D.refuses
        (build_xor D.ops (D.number a) (D.number b) (D.seen domain.old)) fault (D.seen domain.new)) }
    ensures kept { OnErr result (Keeps D.ops (D.seen domain.old) (D.seen domain.new)) }
{
    let not_b = domain.not(b);
    let left = domain.and(a, not_b)?;
    let not_a = domain.not(a);
    let right = domain.and(not_a, b)?;
    or(domain, left, right)
}

/// The value that is `a` where `c` is 1 and `b` where it is 0, built as `or(and(c, a), and(not c, b))`
/// with the left side first.
///
/// It is refused where an `and` of these is, and leaves the domain as it was before that `and`.
pub fn mux<D: Domain>(
    domain: &mut D,
    c: D::Value,
    a: D::Value,
    b: D::Value,
) -> Result<D::Value, D::Fault>
    requires choice { IsTrue (D.ops.is_valid (D.seen domain.old) (D.number c)) }
    requires left { IsTrue (D.ops.is_valid (D.seen domain.old) (D.number a)) }
    requires right { IsTrue (D.ops.is_valid (D.seen domain.old) (D.number b)) }
    ensures built { IfOk result (λ v. Evaluates D.ops (D.seen domain.old) (D.seen domain.new) (D.number v)
        (build_mux D.ops (D.number c) (D.number a) (D.number b) (D.seen domain.old))
        (λ bits. if D.ops.bit (D.seen domain.old) bits (D.number c)
        then D.ops.bit (D.seen domain.old) bits (D.number a)
        else D.ops.bit (D.seen domain.old) bits (D.number b))) }
    ensures stopped { IfErr result (λ fault. Stops D.refuses
        (build_mux D.ops (D.number c) (D.number a) (D.number b) (D.seen domain.old)) fault (D.seen domain.new)) }
    ensures kept { OnErr result (Keeps D.ops (D.seen domain.old) (D.seen domain.new)) }
{
    let left = domain.and(c, a)?;
    let not_c = domain.not(c);
    let right = domain.and(not_c, b)?;
    or(domain, left, right)
}
