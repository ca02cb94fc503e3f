//! The groups of registers by their keys.

ghost use Rattle.std.specs.Prelude.{◌≡◌, ◌≤◌, ◌^◌, length, IfOk, OnOk};
ghost use Rattle.std.specs.List.{range_with_len};
ghost use Rattle.std.specs.Option.{option_map};
ghost use Rattle.cg_stage_groups.specs.inner.Grouping.{with_key, with_member};
ghost use Rattle.cg_stage_groups.specs.Keys.{groups_seen, key_at, key_seen};
ghost use Rattle.cg_stage_list_laws.specs.Groups.{groups};
ghost use Rattle.cg_stage_list_laws.specs.StableList.{same_stable};

use crate::key::Key;
use cg_list::Seq;
use cg_net::id::RegId;
use indexmap::IndexSet;
use std::alloc::{AllocError, Global};

/// Groups in their order: the key of each, and its registers at the same place.
#[derive(Drop)]
pub struct Groups {
    /// The keys.
    pub keys: IndexSet<Key>,

    /// The registers of each key, in their order.
    pub regs: Vec<Seq<RegId>>,
}

/// The groups of registers, where each register that is in a group has a key at its place.
pub fn groups_of(alloc: Global, keys: &[Option<Key>]) -> Result<Groups, AllocError>
    requires { length keys.now ≤ 2 ^ 32 }
    ensures even { IfOk result (λ found. length found.regs.items ≡ length found.keys.keys) }
    ensures groups { IfOk result
        (λ found. groups_seen found.keys.keys found.regs.items ≡ groups same_stable (key_at keys.now) (range_with_len 0 (length keys.now))) }
{
    let mut found = Groups {
        keys: IndexSet::new(alloc),
        regs: Vec::new(alloc),
    };
    for reg in 0..keys.len() {
        put(alloc, &keys[reg], RegId::new(reg as u32), &mut found)?;
    }
    Ok(found)
}

/// Puts a register that has a key behind those of its key.
fn put(alloc: Global, key: &Option<Key>, reg: RegId, found: &mut Groups) -> Result<(), AllocError>
    requires { length found.old.regs.items ≡ length found.old.keys.keys }
    ensures even { OnOk result (length found.new.regs.items ≡ length found.new.keys.keys) }
    ensures put { OnOk result (groups_seen found.new.keys.keys found.new.regs.items ≡ with_key same_stable
        (groups_seen found.old.keys.keys found.old.regs.items) (option_map key_seen key.now) reg) }
{
    match key {
        Some(key) => add(alloc, key, reg, found),
        None => Ok(()),
    }
}

/// Puts a register behind those of its key.
fn add(alloc: Global, key: &Key, reg: RegId, found: &mut Groups) -> Result<(), AllocError>
    requires { length found.old.regs.items ≡ length found.old.keys.keys }
    ensures even { OnOk result (length found.new.regs.items ≡ length found.new.keys.keys) }
    ensures added { OnOk result (groups_seen found.new.keys.keys found.new.regs.items ≡ with_member same_stable
        (groups_seen found.old.keys.keys found.old.regs.items) (key_seen key.now) reg) }
{
    let (place, new) = found.keys.insert_full(key.copy(alloc)?)?;
    if new {
        found.regs.push(Seq::new(alloc))?;
    }
    found.regs[place].push(reg)?;
    Ok(())
}
