//! The registers that a claim says something of, as sets.

ghost use Rattle.std.specs.Prelude.{IfOk};
ghost use Rattle.cg_claim_reach.specs.inner.Found.{AreSetsOf};

use crate::sources::set_of;
use cg_net::id::RegId;
use indexmap::IndexSet;
use std::alloc::{AllocError, Global};

/// The registers that a claim says something of, as sets.
#[derive(Drop)]
pub(crate) struct Named {
    /// Those that hold their next bits after the first cycle.
    pub(crate) follows: IndexSet<u32>,

    /// Those that may have other bits in the last copy.
    pub(crate) changes: IndexSet<u32>,
}

impl Named {
    /// The sets of these registers.
    pub(crate) fn new(
        alloc: Global,
        follows: &[RegId],
        changes: &[RegId],
    ) -> Result<Named, AllocError>
        ensures { IfOk result (AreSetsOf follows.now changes.now) }
    {
        let follows = set_of(alloc, follows)?;
        let changes = set_of(alloc, changes)?;
        Ok(Named { follows, changes })
    }
}
