//! The condition of a claim.

ghost use Rattle.std.specs.Prelude.{◌≡◌, ◌<◌, ℕ, true, length, slice_index_or, IfErr, IfOk, IsTrue};
ghost use Rattle.std.specs.List.{All};
ghost use Rattle.cg_aig.specs.Aig.{aig_ops};
ghost use Rattle.cg_cell.specs.Domain.{AreValid};
ghost use Rattle.cg_claim.specs.Build.{aig_values};
ghost use Rattle.cg_net.specs.NetSets.{is_in};
ghost use Rattle.cg_claim.specs.form.Build.{condition_run, term_run};
ghost use Rattle.cg_hint_laws.specs.Hints.{condition_nets};
ghost use Rattle.cg_unroll.specs.Building.{Built, MayFail};
ghost use Rattle.cg_unroll_cycles.specs.inner.Joining.{or_term_run};

use cg_aig::{Aig, AigFault, AigLit};
use cg_list::Seq;
use cg_machine::stage::NetLit;
use cg_unroll::goal::net_literal;
use cg_unroll::literals::Literals;

/// The literal of a condition: the `or` of its terms from the left, each built when it is joined, and the constant 0
/// without any.
pub(crate) fn condition_literal(
    terms: &[Seq<NetLit>],
    nets: &Literals,
    aig: &mut Aig,
) -> Result<AigLit, AigFault>
    requires literals { All (λ term. 0 < length term) terms.now }
    requires nets { (y : ℕ) → is_in (condition_nets terms.now) y ≡ true → y < length nets.now }
    requires valid { AreValid aig_ops aig.old nets.now }
    ensures built { IfOk result (λ v. Built aig.old aig.new v (condition_run aig_values (λ x. slice_index_or nets.now x 0) terms.now aig.old)) }
    ensures failed { IfErr result (MayFail (condition_run aig_values (λ x. slice_index_or nets.now x 0) terms.now aig.old).domain) }
{
    if terms.is_empty() {
        return Ok(aig.constant(false));
    }
    let mut joined = term_literal(terms[0].as_slice(), nets, aig)?;
    for k in 1..terms.len() {
        joined = or_term(joined, terms[k].as_slice(), nets, aig)?;
    }
    Ok(joined)
}

/// The literal that is 1 where another is or all literals of a term are.
fn or_term(
    joined: AigLit,
    term: &[NetLit],
    nets: &Literals,
    aig: &mut Aig,
) -> Result<AigLit, AigFault>
    requires joined { IsTrue (aig_ops.is_valid aig.old joined) }
    requires literals { 0 < length term.now }
    requires nets { All (λ l. l.0 < length nets.now) term.now }
    requires valid { AreValid aig_ops aig.old nets.now }
    ensures built { IfOk result (λ v. Built aig.old aig.new v (or_term_run (λ x. slice_index_or nets.now x 0) joined term.now aig.old)) }
    ensures failed { IfErr result (MayFail (or_term_run (λ x. slice_index_or nets.now x 0) joined term.now aig.old).domain) }
{
    let term = term_literal(term, nets, aig)?;
    aig.or(joined, term)
}

/// The literal of a term: the `and` of its literals from the left.
fn term_literal(term: &[NetLit], nets: &Literals, aig: &mut Aig) -> Result<AigLit, AigFault>
    requires literals { 0 < length term.now }
    requires nets { All (λ l. l.0 < length nets.now) term.now }
    requires valid { AreValid aig_ops aig.old nets.now }
    ensures built { IfOk result (λ v. Built aig.old aig.new v (term_run aig_values (λ x. slice_index_or nets.now x 0) term.now aig.old)) }
    ensures failed { IfErr result (MayFail (term_run aig_values (λ x. slice_index_or nets.now x 0) term.now aig.old).domain) }
{
    let mut joined = net_literal(term[0], nets);
    for k in 1..term.len() {
        joined = aig.and(joined, net_literal(term[k], nets))?;
    }
    Ok(joined)
}
