//! Registers that a round leaves out.

ghost use Rattle.std.specs.Prelude.{◌≡◌, ◌&&◌, ℕ, false, map, nat_eq, if◌then◌else◌, IfOk, OnOk};
ghost use Rattle.std.specs.Option.{option_map, option_map_or};
ghost use Rattle.cg_stage_groups.specs.Keys.{key_at, key_seen};
ghost use Rattle.cg_stage_groups.specs.Leaving.{had_key, leaves, tried_key, without};
ghost use Rattle.cg_stage_list_laws.specs.Rounds.{kept_key, same_kind};
ghost use Rattle.cg_net.specs.NetSets.{is_in};

use crate::key::Key;
use cg_machine::stage::{Earlier, NetLit, Stage, StageKind};
use cg_net::id::{NetId, RegId};
use std::alloc::{AllocError, Global};

/// Clears the keys of the registers that a round of a kind of stages leaves out: those that stood in an earlier stage of
/// the kind that was inserted, or that had the key.
pub fn leave_out(
    alloc: Global,
    kind: StageKind,
    earlier: &[Earlier],
    keys: &mut [Option<Key>],
) -> Result<(), AllocError>
    ensures { OnOk result ((r : ℕ) → key_at keys.new r ≡ kept_key kind (had_key kind) earlier.now (key_at keys.old) r) }
{
    for before in earlier {
        leave_out_of(alloc, kind, before, keys)?;
    }
    Ok(())
}

/// Clears the keys of the registers of one stage, where it is of the kind and leaves them out.
fn leave_out_of(
    alloc: Global,
    kind: StageKind,
    before: &Earlier,
    keys: &mut [Option<Key>],
) -> Result<(), AllocError>
    ensures { OnOk result ((r : ℕ)
        → key_at keys.new r ≡ (if (same_kind before.now.stage.kind kind && is_in before.now.stage.regs r)
        then without before.now.inserted (tried_key kind before.now.stage) (key_at keys.old r) else key_at keys.old r)) }
{
    if !is_same_kind(before.stage.kind, kind) {
        return Ok(());
    }
    let tried = key_of_stage(alloc, kind, &before.stage)?;
    let regs = before.stage.regs.as_slice();
    take_out(regs, before.inserted, &tried, keys);
    Ok(())
}

/// Whether two kinds of stages are the same.
pub fn is_same_kind(kind: StageKind, other: StageKind) -> bool
    ensures { result ≡ same_kind kind other }
{
    match (kind, other) {
        (StageKind::Hold, StageKind::Hold) => true,
        (StageKind::Stable, StageKind::Stable) => true,
        (StageKind::Unseen, StageKind::Unseen) => true,
        _ => false,
    }
}

/// The key that the registers of a stage of a kind had.
fn key_of_stage(alloc: Global, kind: StageKind, stage: &Stage) -> Result<Key, AllocError>
    ensures { IfOk result (λ key. key_seen key ≡ tried_key kind stage.now) }
{
    match kind {
        StageKind::Stable => Ok(Key {
            numbers: nets_of(alloc, stage.enable.as_slice())?,
            own: number_of(stage.own),
        }),
        _ => Ok(Key {
            numbers: numbers_of(alloc, stage.guards.as_slice())?,
            own: None,
        }),
    }
}

/// The numbers of the nets of these literals.
fn nets_of(alloc: Global, literals: &[NetLit]) -> Result<Vec<u32>, AllocError>
    ensures { IfOk result (λ numbers. numbers.items ≡ map (λ l. l.0) literals.now) }
{
    let mut numbers = Vec::new(alloc);
    for literal in literals {
        numbers.push(literal.net.number())?;
    }
    Ok(numbers)
}

/// The number of a net, where there is one.
fn number_of(net: Option<NetId>) -> Option<u32>
    ensures { result ≡ net }
{
    match net {
        Some(net) => Some(net.number()),
        None => None,
    }
}

/// The numbers of registers.
fn numbers_of(alloc: Global, regs: &[RegId]) -> Result<Vec<u32>, AllocError>
    ensures { IfOk result (λ numbers. numbers.items ≡ regs.now) }
{
    let mut numbers = Vec::new(alloc);
    for reg in regs {
        numbers.push(reg.number())?;
    }
    Ok(numbers)
}

/// Takes out the keys of the registers of a stage that was tried, where it was inserted, or they have the key that it had.
fn take_out(regs: &[RegId], inserted: bool, tried: &Key, keys: &mut [Option<Key>])
    ensures { (r : ℕ) → key_at keys.new r ≡ (if is_in regs.now r then without inserted (key_seen tried.now) (key_at keys.old r) else key_at keys.old r) }
{
    for reg in regs {
        clear(reg.number() as usize, inserted, tried, keys);
    }
}

/// Clears the key of one register, where the stage leaves it out.
fn clear(place: usize, inserted: bool, tried: &Key, keys: &mut [Option<Key>])
    ensures { (r : ℕ) → key_at keys.new r ≡ (if nat_eq r place then without inserted (key_seen tried.now) (key_at keys.old r) else key_at keys.old r) }
{
    if place >= keys.len() {
        return;
    }
    if !is_left_out(inserted, tried, &keys[place]) {
        return;
    }
    keys[place] = None;
}

/// Whether a key is there, and the stage leaves out a register of it with this key.
fn is_left_out(inserted: bool, tried: &Key, key: &Option<Key>) -> bool
    ensures { result ≡ option_map_or (leaves inserted (key_seen tried.now)) (option_map key_seen key.now) false }
{
    match key {
        Some(key) => inserted || *key == *tried,
        None => false,
    }
}
