//! The registers of unobservability claims.

ghost use Rattle.std.specs.Prelude.{◌≡◌, IfOk};

use crate::named::Named;
use cg_net::id::RegId;
use std::alloc::{AllocError, Global};
use std::marker::Model;

/// The registers of unobservability claims and their guards, with the sets of both.
///
/// The sets are made once, for all claims of the same registers: each of these claims then costs what it reaches, however
/// many the registers are. Clauses see an `UnseenData`.
#[derive(Drop)]
pub struct UnseenRegs<'a> {
    guards: &'a [RegId],
    regs: &'a [RegId],
    pub(crate) named: Named,
}

impl<'a> Model for UnseenRegs<'a> {
    ghost use Rattle.cg_claim_reach.specs.Unseen.{UnseenData};
    ghost use Rattle.cg_claim_reach.specs.inner.Found.{AreSetsOf};

    ghost Value = { UnseenData };

    ghost view = { λ u. record { guards = u.guards.now; regs = u.regs.now } };

    ghost invariant = { λ u. AreSetsOf u.guards.now u.regs.now u.named };
}

impl<'a> UnseenRegs<'a> {
    /// These registers, of which the guards hold their next bits and the others may have other bits.
    pub fn new(
        alloc: Global,
        guards: &'a [RegId],
        regs: &'a [RegId],
    ) -> Result<UnseenRegs<'a>, AllocError>
        ensures { IfOk result (λ unseen. unseen ≡ record { guards = guards.now; regs = regs.now }) }
    {
        let named = Named::new(alloc, guards, regs)?;
        Ok(UnseenRegs {
            guards,
            regs,
            named,
        })
    }
    /// The guards.
    pub fn guards(&self) -> &'a [RegId]
        ensures { result.now ≡ self.now.guards }
    {
        self.guards
    }

    /// The registers that may have other bits.
    pub fn regs(&self) -> &'a [RegId]
        ensures { result.now ≡ self.now.regs }
    {
        self.regs
    }
}
