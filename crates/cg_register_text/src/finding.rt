//! The causes of registers.

ghost use Rattle.std.specs.Prelude.{◌≡◌, ◌<◌, ◌+◌, ◌++◌, ◌∷◌, [], if◌then◌else◌, length, map, slice_get, true, IfOk, OnOk, Some};
ghost use Rattle.cg_stage_list_laws.specs.HoldList.{hold_width};
ghost use Rattle.cg_register_text.specs.Causes.{cause_of, causes_of, is_given};
ghost use Rattle.cg_register_text.specs.Words.{IsToldOf, tried_of};
ghost use Rattle.cg_register_text.specs.inner.Finding.{AreTables, cause_by_width, cause_seen, is_measured, measured_regs, or_free, seen_cause};

use crate::cause::Cause;
use crate::seen::{Seen, seen_at, seen_in_hints, seen_in_stages};
use crate::told::Told;
use cg_hold_widths::widths::Widths;
use cg_net::id::RegId;
use cg_netlist::netlist::Netlist;
use std::alloc::{AllocError, Global};

/// What was tried for each register: which hints, and which stages.
#[derive(Drop)]
pub(crate) struct Tables {
    pub hints: Vec<Seen>,
    pub stages: Vec<Seen>,
}

/// What was tried for the registers of a netlist.
pub(crate) fn tables_of(alloc: Global, told: &Told<'_>) -> Result<Tables, AllocError>
    requires { IsToldOf told.now }
    ensures { IfOk result (AreTables told.now) }
{
    let registers = told.read.registers();
    let hints = seen_in_hints(alloc, registers, told.hints, told.outcomes)?;
    let stages = seen_in_stages(alloc, registers, told.plan.stages.as_slice())?;
    Ok(Tables { hints, stages })
}

/// The causes of all registers of the netlist that was read, in their order. The hold claims are measured, all at once, of those that
/// are not gated or given, and that no stage has.
pub(crate) fn causes(
    alloc: Global,
    told: &Told<'_>,
    tables: &Tables,
) -> Result<Vec<Cause>, AllocError>
    requires told { IsToldOf told.now }
    requires tables { AreTables told.now tables.now }
    ensures { IfOk result (λ causes. causes.items ≡ causes_of (tried_of told.now)) }
{
    let regs = measured_regs(alloc, told, tables)?;
    let widths = Widths::new(alloc).of(&told.plan.machine, &regs)?;
    causes_by(alloc, told, tables, &widths)
}

/// The registers whose hold claims are measured, in their order.
fn measured_regs(alloc: Global, told: &Told<'_>, tables: &Tables) -> Result<Vec<RegId>, AllocError>
    requires tables { AreTables told.now tables.now }
    ensures { IfOk result (λ regs. regs.items ≡ measured_regs (tried_of told.now)) }
{
    let mut regs = Vec::new(alloc);
    for number in 0..told.read.registers() {
        push_measured(told, tables, RegId::new(number), &mut regs)?;
    }
    Ok(regs)
}

/// Puts a register behind the others where its hold claims are measured.
fn push_measured(
    told: &Told<'_>,
    tables: &Tables,
    reg: RegId,
    regs: &mut Vec<RegId>,
) -> Result<(), AllocError>
    requires tables { AreTables told.now tables.now }
    requires register { reg < length told.now.read.registers }
    ensures { OnOk result (regs.new.items ≡ (if is_measured (tried_of told.now) reg then regs.old.items ++ reg ∷ [] else regs.old.items)) }
{
    match seen_cause(told, tables, reg) {
        Some(_) => Ok(()),
        None => {
            regs.push(reg)?;
            Ok(())
        }
    }
}

/// The causes of all registers, with the widths of those whose hold claims are measured.
fn causes_by(
    alloc: Global,
    told: &Told<'_>,
    tables: &Tables,
    widths: &[u64],
) -> Result<Vec<Cause>, AllocError>
    requires tables { AreTables told.now tables.now }
    requires widths { widths.now ≡ map (hold_width told.now.began) (measured_regs (tried_of told.now)) }
    ensures { IfOk result (λ causes. causes.items ≡ causes_of (tried_of told.now)) }
{
    let mut causes = Vec::new(alloc);
    let mut next = 0;
    for number in 0..told.read.registers() {
        let found = cause(told, tables, RegId::new(number), widths, &mut next);
        causes.push(found)?;
    }
    Ok(causes)
}

/// The cause of a register, by the next of the widths where its hold claims are measured.
fn cause(told: &Told<'_>, tables: &Tables, reg: RegId, widths: &[u64], next: &mut usize) -> Cause
    requires tables { AreTables told.now tables.now }
    requires register { reg < length told.now.read.registers }
    requires width { is_measured (tried_of told.now) reg ≡ true → slice_get widths.now next.old ≡ Some (hold_width told.now.began reg) }
    ensures cause { result ≡ cause_of (tried_of told.now) reg }
    ensures next { next.new ≡ (if is_measured (tried_of told.now) reg then next.old + 1 else next.old) }
{
    match seen_cause(told, tables, reg) {
        Some(cause) => cause,
        None => {
            let width = widths[*next];
            *next += 1;
            let hints = seen_at(&tables.hints, reg);
            cause_by_width(told.width, hints.failed, width)
        }
    }
}

/// The cause of a register, unless its hold claims have to be measured.
fn seen_cause(told: &Told<'_>, tables: &Tables, reg: RegId) -> Option<Cause>
    requires tables { AreTables told.now tables.now }
    requires register { reg < length told.now.read.registers }
    ensures { result ≡ seen_cause (tried_of told.now) reg }
{
    let hints = seen_at(&tables.hints, reg);
    let stages = seen_at(&tables.stages, reg);
    let given = is_given(told.read, reg);
    cause_seen(hints, stages, given)
}

/// The cause of a register by what was tried for it and by whether it is on a gating cell, unless its hold claims have to be measured.
fn cause_seen(hints: &Seen, stages: &Seen, given: bool) -> Option<Cause>
    ensures { result ≡ cause_seen hints.now stages.now given }
{
    if !hints.givers.is_empty() || !stages.givers.is_empty() {
        return Some(Cause::Gated);
    }
    if let Some(number) = stages.failed {
        return Some(Cause::Stage(number));
    }
    if given {
        return Some(Cause::Given);
    }
    None
}

/// The cause of a register by the width of its hold claims, or else by the last hint that was tried for it.
fn cause_by_width(most: u32, failed: Option<u64>, width: u64) -> Cause
    ensures { result ≡ cause_by_width most failed width }
{
    if width > u64::from(most) {
        Cause::Wide(width)
    } else {
        or_free(failed)
    }
}

/// The cause of a register whose hold claims are not too wide: the last hint that was tried for it, if there is one.
fn or_free(failed: Option<u64>) -> Cause
    ensures { result ≡ or_free failed }
{
    match failed {
        Some(number) => Cause::Hint(number),
        None => Cause::Free,
    }
}

/// Whether a register is on a gating cell: each register is on the clock or on the output of one.
fn is_given(netlist: &Netlist, reg: RegId) -> bool
    requires { reg < length netlist.now.registers }
    ensures { result ≡ is_given netlist.now reg }
{
    let _nets = netlist.nets();
    let clock = netlist.register(reg).clock;
    match netlist.clock() {
        Some(net) => net.number() != clock.number(),
        None => true,
    }
}
