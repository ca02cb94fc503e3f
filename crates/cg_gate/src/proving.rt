//! The proof file of hints and a plan, whose certificates are let go once it is made.

ghost use Rattle.std.specs.Prelude.{◌≡◌, [], IfOk};
ghost use Rattle.cg_gate.specs.Gating.{where_asked};
ghost use Rattle.cg_gate.specs.Left.{proved_by};
ghost use Rattle.cg_plan.specs.Planning.{AreWritable, told};
ghost use Rattle.cg_plan_text.specs.ProofText.{AreWritableHints, proof_text};

use crate::planning::{Planned, TriedHints};
use cg_hint_laws::outcome::HintOutcome;
use cg_list::Seq;
use cg_netlist::netlist::Netlist;
use cg_plan::plan::Plan;
use cg_plan_text::proof::proof_text;
use std::alloc::{AllocError, Global};

/// Hints and a plan with their proof file, where it is asked for. Their certificates, which may be larger than the netlist, are let go.
#[derive(Drop)]
pub(crate) struct Proved {
    /// What came of each hint, in order.
    pub outcomes: Seq<HintOutcome>,

    /// The plan without its certificates.
    pub plan: Plan,

    pub proof: Option<Seq<u8>>,

    /// The netlist that was read, where it is not the machine's own.
    pub kept: Option<Netlist>,
}

/// Hints and a plan with their proof file, where it is asked for, and without their certificates, which nothing reads any more.
pub(crate) fn prove(alloc: Global, planned: Planned, asked: bool) -> Result<Proved, AllocError>
    requires stages { AreWritable planned.plan.certificates }
    requires hints { AreWritableHints planned.hints.certificates }
    ensures { IfOk result (λ proved. proved ≡ proved_by planned (where_asked asked (proof_text (told planned.plan) planned.hints.certificates))) }
{
    match proof_asked(alloc, asked, &planned.plan, &planned.hints) {
        Ok(proof) => Ok(without_certificates(alloc, planned, proof)),
        Err(fault) => {
            drop(planned);
            Err(fault)
        }
    }
}

/// The proof file, where it is asked for.
fn proof_asked(
    alloc: Global,
    asked: bool,
    plan: &Plan,
    hints: &TriedHints,
) -> Result<Option<Seq<u8>>, AllocError>
    requires stages { AreWritable plan.now.certificates }
    requires hints { AreWritableHints hints.now.certificates }
    ensures { IfOk result (λ text. text ≡ where_asked asked (proof_text (told plan.now) hints.now.certificates)) }
{
    if !asked {
        return Ok(None);
    }
    let hints = hints.certificates.as_slice();
    Ok(Some(Seq::from_vec(proof_text(alloc, plan, hints)?)))
}

/// Hints and a plan with this proof file and without their certificates.
fn without_certificates(alloc: Global, planned: Planned, proof: Option<Seq<u8>>) -> Proved
    ensures { result ≡ proved_by planned proof }
{
    let Planned { hints, plan, kept } = planned;
    let TriedHints {
        outcomes,
        certificates,
    } = hints;
    drop(certificates);
    Proved {
        outcomes,
        plan: uncertified(alloc, plan),
        proof,
        kept,
    }
}

/// A plan without its certificates.
fn uncertified(alloc: Global, plan: Plan) -> Plan
    ensures { result ≡ record plan { certificates = [] } }
{
    let Plan {
        machine,
        stages,
        wide,
        certificates,
    } = plan;
    drop(certificates);
    Plan {
        machine,
        stages,
        wide,
        certificates: Seq::new(alloc),
    }
}
