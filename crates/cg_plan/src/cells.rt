//! How a stage ends by its registers and its cells alone.

ghost use Rattle.std.specs.Prelude.{◌≡◌, ℕ, not, is_some};
ghost use Rattle.cg_cell.specs.Library.{first_fit};
ghost use Rattle.cg_plan.specs.inner.Measuring.{early_end};
ghost use Rattle.cg_stage_laws.specs.Needs.{gater_kind, joins_own, missing, needs};
ghost use Rattle.cg_stage_laws.specs.Stages.{has_inverted};

use cg_cell::fit::FitKind;
use cg_cell::library::Library;
use cg_machine::stage::{NetLit, Stage, StageKind};
use cg_plan_laws::outcome::Outcome;
use cg_plan_laws::settings::Settings;

/// How a stage ends that has too few registers, or of which the library lacks a cell.
pub(crate) fn early_end(stage: &Stage, library: &Library, settings: &Settings) -> Option<Outcome>
    ensures { result ≡ early_end library.now settings.now stage.now }
{
    let count = stage.regs.len();
    if count < settings.min as usize {
        return Some(Outcome::Small(count as u32));
    }
    match missing(library, settings.test, stage) {
        Some(kind) => Some(Outcome::NoCell(kind)),
        None => None,
    }
}

/// The first kind of cell that a stage needs and the library lacks.
fn missing(library: &Library, test: bool, stage: &Stage) -> Option<FitKind>
    ensures { result ≡ missing library.now (needs test stage.now) }
{
    let gater = gater_kind(test);
    if lacks(library, gater) {
        return Some(gater);
    }
    if has_inverted(stage.enable.as_slice()) && lacks(library, FitKind::Inv) {
        return Some(FitKind::Inv);
    }
    if stage.enable.len() > 1 && lacks(library, FitKind::Or2) {
        return Some(FitKind::Or2);
    }
    if joins_own(stage) && lacks(library, FitKind::And2) {
        return Some(FitKind::And2);
    }
    None
}

/// Whether the library has no cell of this kind.
fn lacks(library: &Library, kind: FitKind) -> bool
    ensures { result ≡ not (is_some (first_fit kind library.now)) }
{
    library.fit(kind).is_none()
}

/// The gating cell that is needed.
fn gater_kind(test: bool) -> FitKind
    ensures { result ≡ gater_kind test }
{
    if test {
        FitKind::TestGater
    } else {
        FitKind::Gater
    }
}

/// Whether a literal is inverted.
fn has_inverted(enables: &[NetLit]) -> bool
    ensures { result ≡ has_inverted enables.now }
{
    for literal in enables {
        if literal.inverted {
            return true;
        }
    }
    false
}

/// Whether the enable that the registers have before is joined with the new one.
fn joins_own(stage: &Stage) -> bool
    ensures { result ≡ joins_own stage.now.kind stage.now.own }
{
    match stage.kind {
        StageKind::Stable => stage.own.is_some(),
        StageKind::Hold | StageKind::Unseen => false,
    }
}
