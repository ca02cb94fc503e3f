//! The proof file of a plan.

ghost use Rattle.std.specs.Prelude.{◌≡◌, ◌++◌, IfOk, OnOk};
ghost use Rattle.std.specs.List.{flat_map};
ghost use Rattle.cg_formula.specs.Bounds.{IsFormula};
ghost use Rattle.cg_formula.specs.DimacsText.{dimacs_text};
ghost use Rattle.cg_lrat.specs.Bounds.{IsLog};
ghost use Rattle.cg_lrat.specs.LratText.{lrat_text};
ghost use Rattle.cg_plan_text.specs.ProofText.{AreWritableHints, IsWritableHint, certificate_text, heading_words, hint_certificate_text, hint_heading_words, proof_text};
ghost use Rattle.cg_plan.specs.Planning.{AreWritable, IsWritableCertificate, told};
ghost use Rattle.cg_text.specs.Written.{line_text};

use crate::claim::{push_claim, push_of};
use crate::names::{push_count, push_word};
use cg_formula::{Formula, write_dimacs};
use cg_hint_laws::certificate::HintCertificate;
use cg_lrat::{Log, write_lrat};
use cg_machine::machine::Machine;
use cg_plan::plan::Plan;
use cg_plan_laws::certificate::Certificate;
use std::alloc::{AllocError, Global};

/// The proof file of a plan: the certificates of the hints that were tried before it, and then its own. All keep to the bounds of
/// their formats.
#[tactic(auto, using(crate::proofs::TextLemmas::pieces))]
pub fn proof_text(
    alloc: Global,
    plan: &Plan,
    hints: &[HintCertificate],
) -> Result<Vec<u8>, AllocError>
    requires stages { AreWritable plan.now.certificates }
    requires hints { AreWritableHints hints.now }
    ensures { IfOk result (λ text. text.items ≡ proof_text (told plan.now) hints.now) }
{
    let mut text = Vec::new(alloc);
    push_hint_certificates(alloc, &mut text, &plan.machine, hints)?;
    push_certificates(
        alloc,
        &mut text,
        &plan.machine,
        plan.certificates.as_slice(),
    )?;
    Ok(text)
}

/// Puts certificates behind a text, each with a heading.
#[tactic(auto, using(crate::proofs::TextLemmas::turns))]
fn push_certificates(
    alloc: Global,
    text: &mut Vec<u8>,
    machine: &Machine,
    certificates: &[Certificate],
) -> Result<(), AllocError>
    requires { AreWritable certificates.now }
    ensures { OnOk result (text.new.items ≡ text.old.items ++ flat_map (certificate_text machine.now) certificates.now) }
{
    'certificates: for certificate in certificates {
        push_certificate(alloc, text, machine, certificate)?;
    }
    Ok(())
}

/// Puts a certificate behind a text: its heading, its formula and its log.
#[tactic(auto, using(crate::proofs::TextLemmas::pieces))]
fn push_certificate(
    alloc: Global,
    text: &mut Vec<u8>,
    machine: &Machine,
    certificate: &Certificate,
) -> Result<(), AllocError>
    requires { IsWritableCertificate certificate.now }
    ensures { OnOk result (text.new.items ≡ text.old.items ++ certificate_text machine.now certificate.now) }
{
    push_heading(text, machine, certificate)?;
    push_formula(alloc, text, &certificate.formula)?;
    text.extend_from_slice(b"c lrat\n")?;
    push_log(alloc, text, &certificate.log)
}

#[tactic(auto, using(crate::proofs::TextLemmas::lines))]
fn push_heading(
    text: &mut Vec<u8>,
    machine: &Machine,
    certificate: &Certificate,
) -> Result<(), AllocError>
    ensures { OnOk result (text.new.items ≡ text.old.items ++ line_text (heading_words machine.now certificate.now)) }
{
    text.extend_from_slice(b"c")?;
    push_word(text, b"stage")?;
    push_count(text, u64::from(certificate.stage))?;
    push_claim(text, machine, certificate.claim)?;
    text.extend_from_slice(b"\n")
}

/// Puts certificates of hints behind a text, each with a heading.
#[tactic(auto, using(crate::proofs::TextLemmas::turns))]
fn push_hint_certificates(
    alloc: Global,
    text: &mut Vec<u8>,
    machine: &Machine,
    certificates: &[HintCertificate],
) -> Result<(), AllocError>
    requires { AreWritableHints certificates.now }
    ensures { OnOk result (text.new.items ≡ text.old.items ++ flat_map (hint_certificate_text machine.now) certificates.now) }
{
    'certificates: for certificate in certificates {
        push_hint_certificate(alloc, text, machine, certificate)?;
    }
    Ok(())
}

/// Puts a certificate of a hint behind a text: its heading, its formula and its log.
#[tactic(auto, using(crate::proofs::TextLemmas::pieces))]
fn push_hint_certificate(
    alloc: Global,
    text: &mut Vec<u8>,
    machine: &Machine,
    certificate: &HintCertificate,
) -> Result<(), AllocError>
    requires { IsWritableHint certificate.now }
    ensures { OnOk result (text.new.items ≡ text.old.items ++ hint_certificate_text machine.now certificate.now) }
{
    push_hint_heading(text, machine, certificate)?;
    push_formula(alloc, text, &certificate.formula)?;
    text.extend_from_slice(b"c lrat\n")?;
    push_log(alloc, text, &certificate.log)
}

#[tactic(auto, using(crate::proofs::TextLemmas::lines))]
fn push_hint_heading(
    text: &mut Vec<u8>,
    machine: &Machine,
    certificate: &HintCertificate,
) -> Result<(), AllocError>
    ensures { OnOk result (text.new.items ≡ text.old.items ++ line_text (hint_heading_words machine.now certificate.now)) }
{
    text.extend_from_slice(b"c hint")?;
    push_count(text, u64::from(certificate.number))?;
    push_of(text, b"hold", machine, certificate.reg)?;
    text.extend_from_slice(b"\n")
}

fn push_formula(alloc: Global, text: &mut Vec<u8>, formula: &Formula) -> Result<(), AllocError>
    requires { IsFormula formula.now }
    ensures { OnOk result (text.new.items ≡ text.old.items ++ dimacs_text formula.now) }
{
    let lines = write_dimacs(alloc, formula)?;
    text.extend_from_slice(&lines)
}

fn push_log(alloc: Global, text: &mut Vec<u8>, log: &Log) -> Result<(), AllocError>
    requires { IsLog log.now }
    ensures { OnOk result (text.new.items ≡ text.old.items ++ lrat_text log.now) }
{
    let lines = write_lrat(alloc, log)?;
    text.extend_from_slice(&lines)
}
