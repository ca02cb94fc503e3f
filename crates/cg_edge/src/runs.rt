//! Registers that stand one behind the other and have one clock net.

ghost use Rattle.std.specs.Prelude.{◌≡◌, ◌+◌, ◌<◌, ℕ, false, length, slice_get, Some, IfOk};
ghost use Rattle.cg_netlist.specs.Circuit.{RegisterCell};
ghost use Rattle.cg_edge.specs.inner.Runs.{AreRuns};

use cg_net::id::{NetId, RegId};
use cg_netlist::netlist::Netlist;
use std::alloc::{AllocError, Global};

/// Registers from the end of the run before up to `end`, which all have this clock net.
///
/// A tick looks at the clock net once for all of them, and at no register where it does not rise.
#[derive(Clone, Copy)]
pub(crate) struct Run {
    pub(crate) clock: NetId,
    pub(crate) end: u32,
}

/// The registers of a netlist in runs.
pub(crate) fn runs(alloc: Global, netlist: &Netlist) -> Result<Vec<Run>, AllocError>
    ensures { IfOk result (λ runs. AreRuns netlist.now.registers 0 (length netlist.now.registers) runs.items) }
{
    let mut runs = Vec::new(alloc);
    for k in 0..netlist.registers() {
        if ends_run(netlist, k) {
            let clock = netlist.register(RegId::new(k)).clock;
            runs.push(Run { clock, end: k + 1 })?;
        }
    }
    Ok(runs)
}

/// Whether no register behind this one has the same clock net without another between them.
fn ends_run(netlist: &Netlist, k: u32) -> bool
    requires { k < length netlist.now.registers }
    ensures { (r : RegisterCell ℕ ℕ) → result ≡ false → slice_get netlist.now.registers k ≡ Some r
        → (next : RegisterCell ℕ ℕ) × (slice_get netlist.now.registers (k + 1) ≡ Some next) × (next.clock ≡ r.clock) }
{
    let count = netlist.registers();
    if k + 1 == count {
        return true;
    }
    let own = netlist.register(RegId::new(k)).clock;
    let next = netlist.register(RegId::new(k + 1)).clock;
    own.number() != next.number()
}
