//! Keys of registers.

ghost use Rattle.std.specs.Prelude.{◌≡◌, IfOk};
ghost use Rattle.cg_stage_groups.specs.Keys.{key_seen};

use std::alloc::{AllocError, Global};

/// The key of a register: numbers of nets or of registers, which rise, and beside them the register's own enable or
/// none.
#[derive(Debug, Drop, PartialEq, Eq, Hash)]
pub struct Key {
    /// The numbers.
    pub numbers: Vec<u32>,

    /// The own enable, where it counts and there is one.
    pub own: Option<u32>,
}

impl Key {
    /// The same key once more.
    pub fn copy(&self, alloc: Global) -> Result<Key, AllocError>
        ensures { IfOk result (λ key. key_seen key ≡ key_seen self.now) }
    {
        Ok(Key {
            numbers: Vec::from_slice(alloc, &self.numbers)?,
            own: self.own,
        })
    }
}
