//! What was tried for each register.

ghost use Rattle.std.specs.Prelude.{◌≡◌, ◌<◌, length, replicate, slice_get, IfOk, OnOk, Some};
ghost use Rattle.cg_register_text.specs.Trials.{hint_trials, stage_trials};
ghost use Rattle.cg_register_text.specs.inner.Seeing.{AreNoted, AreSeen, ends_with, noted, noted_at, unseen};

use cg_hint_laws::hint::Hint;
use cg_hint_laws::outcome::HintOutcome;
use cg_list::Seq;
use cg_machine::stage::Stage;
use cg_net::id::RegId;
use cg_plan_laws::outcome::Outcome;
use std::alloc::{AllocError, Global};

/// What was tried for a register, by the numbers of the trials.
#[derive(Drop)]
pub(crate) struct Seen {
    /// The trials that gave it its enable.
    pub givers: Seq<u64>,

    /// The last of those that have it and gave it none.
    pub failed: Option<u64>,
}

impl Seen {
    /// Notes a trial that has the register.
    fn note(&mut self, number: u64, inserted: bool) -> Result<(), AllocError>
        ensures { OnOk result (self.new ≡ noted number inserted self.old) }
    {
        if !inserted {
            self.failed = Some(number);
            return Ok(());
        }
        // A register that stands twice in a trial is noted once.
        if ends_with(self.givers.as_slice(), number) {
            return Ok(());
        }
        self.givers.push(number)
    }
}

/// Whether a number is the last of some.
fn ends_with(numbers: &[u64], number: u64) -> bool
    ensures { result ≡ ends_with numbers.now number }
{
    match numbers.last() {
        None => false,
        Some(last) => *last == number,
    }
}

/// What was tried for a register.
pub(crate) fn seen_at(seen: &[Seen], reg: RegId) -> &Seen
    requires { reg < length seen.now }
    ensures { slice_get seen.now reg ≡ Some result.now }
{
    &seen[reg.number() as usize]
}

/// What stages were tried for each of so many registers.
pub(crate) fn seen_in_stages(
    alloc: Global,
    registers: u32,
    stages: &[(Stage, Outcome)],
) -> Result<Vec<Seen>, AllocError>
    ensures { IfOk result (λ seen. AreSeen registers (stage_trials stages.now) seen.items) }
{
    let mut seen = nothing_seen(alloc, registers)?;
    'stages: for place in 0..stages.len() {
        let tried = &stages[place];
        let regs = tried.0.regs.as_slice();
        let inserted = tried.1.is_inserted();
        note_all(&mut seen, regs, place as u64 + 1, inserted)?;
    }
    Ok(seen)
}

/// What hints were tried for each of so many registers.
pub(crate) fn seen_in_hints(
    alloc: Global,
    registers: u32,
    hints: &[Hint],
    outcomes: &[HintOutcome],
) -> Result<Vec<Seen>, AllocError>
    requires { length hints.now ≡ length outcomes.now }
    ensures { IfOk result (λ seen. AreSeen registers (hint_trials hints.now outcomes.now) seen.items) }
{
    let mut seen = nothing_seen(alloc, registers)?;
    'hints: for place in 0..hints.len() {
        let regs = hints[place].regs.as_slice();
        let inserted = outcomes[place].is_inserted();
        note_all(&mut seen, regs, place as u64 + 1, inserted)?;
    }
    Ok(seen)
}

/// Nothing that was tried, for each of so many registers.
fn nothing_seen(alloc: Global, registers: u32) -> Result<Vec<Seen>, AllocError>
    ensures { IfOk result (λ seen. seen.items ≡ replicate registers unseen) }
{
    let mut seen = Vec::new(alloc);
    for _ in 0..registers {
        seen.push(Seen {
            givers: Seq::new(alloc),
            failed: None,
        })?;
    }
    Ok(seen)
}

/// Notes a trial at each of its registers.
fn note_all(
    seen: &mut [Seen],
    regs: &[RegId],
    number: u64,
    inserted: bool,
) -> Result<(), AllocError>
    ensures { OnOk result (AreNoted regs.now number inserted seen.old seen.new) }
{
    'regs: for reg in regs {
        note_at(seen, *reg, number, inserted)?;
    }
    Ok(())
}

/// Notes a trial at one of its registers.
fn note_at(seen: &mut [Seen], reg: RegId, number: u64, inserted: bool) -> Result<(), AllocError>
    ensures { OnOk result (seen.new ≡ noted_at reg number inserted seen.old) }
{
    let place = reg.number() as usize;
    if place >= seen.len() {
        return Ok(());
    }
    seen[place].note(number, inserted)
}
