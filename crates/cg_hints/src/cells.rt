//! How a hint ends by its registers and its cells alone.

ghost use Rattle.std.specs.Prelude.{◌≡◌, ◌<◌, ℕ, length, not, is_some};
ghost use Rattle.std.specs.List.{All, find, list_any};
ghost use Rattle.cg_cell.specs.Library.{first_fit};
ghost use Rattle.cg_hint_laws.specs.Hints.{Fits};
ghost use Rattle.cg_hint_laws.specs.Needs.{has_more, needs};
ghost use Rattle.cg_hints.specs.inner.Judging.{early_end};
ghost use Rattle.cg_machine.specs.Machine.{enable_of};
ghost use Rattle.cg_stage_laws.specs.Needs.{missing};
ghost use Rattle.cg_stage_laws.specs.Stages.{has_inverted};

use cg_cell::fit::FitKind;
use cg_cell::library::Library;
use cg_hint_laws::hint::Hint;
use cg_hint_laws::outcome::HintOutcome;
use cg_list::Seq;
use cg_machine::machine::Machine;
use cg_machine::stage::NetLit;
use cg_net::id::RegId;

/// How a hint ends of which a register has an enable, or of which the library lacks a cell.
pub(crate) fn early_end(machine: &Machine, hint: &Hint, library: &Library) -> Option<HintOutcome>
    requires { Fits machine.now hint.now }
    ensures { result ≡ early_end library.now machine.now hint.now }
{
    let _netlist = machine.netlist();
    if let Some(reg) = first_taken(machine, hint.regs.as_slice()) {
        return Some(HintOutcome::Taken(reg));
    }
    match missing(library, hint) {
        Some(kind) => Some(HintOutcome::NoCell(kind)),
        None => None,
    }
}

/// The first of these registers that has an enable.
fn first_taken(machine: &Machine, regs: &[RegId]) -> Option<RegId>
    requires { All (λ r. r < length machine.now.circuit.registers) regs.now }
    ensures { result ≡ find (λ r. is_some (enable_of machine.now r)) regs.now }
{
    for reg in regs {
        if machine.enable(*reg).is_some() {
            return Some(*reg);
        }
    }
    None
}

/// The first kind of cell that a hint needs and the library lacks.
fn missing(library: &Library, hint: &Hint) -> Option<FitKind>
    ensures { result ≡ missing library.now (needs hint.now) }
{
    let terms = hint.terms.as_slice();
    if lacks(library, FitKind::Gater) {
        return Some(FitKind::Gater);
    }
    if any_inverted(terms) && lacks(library, FitKind::Inv) {
        return Some(FitKind::Inv);
    }
    if terms.len() > 1 && lacks(library, FitKind::Or2) {
        return Some(FitKind::Or2);
    }
    if any_joined(terms) && lacks(library, FitKind::And2) {
        return Some(FitKind::And2);
    }
    None
}

/// Whether the library has no cell of this kind.
fn lacks(library: &Library, kind: FitKind) -> bool
    ensures { result ≡ not (is_some (first_fit kind library.now)) }
{
    library.fit(kind).is_none()
}

/// Whether a literal of a term is inverted.
fn has_inverted(term: &[NetLit]) -> bool
    ensures { result ≡ has_inverted term.now }
{
    for literal in term {
        if literal.inverted {
            return true;
        }
    }
    false
}

/// Whether a literal of some term is inverted.
fn any_inverted(terms: &[Seq<NetLit>]) -> bool
    ensures { result ≡ list_any has_inverted terms.now }
{
    for k in 0..terms.len() {
        if has_inverted(terms[k].as_slice()) {
            return true;
        }
    }
    false
}

/// Whether some term has more than one literal.
fn any_joined(terms: &[Seq<NetLit>]) -> bool
    ensures { result ≡ list_any has_more terms.now }
{
    for k in 0..terms.len() {
        if terms[k].len() > 1 {
            return true;
        }
    }
    false
}
