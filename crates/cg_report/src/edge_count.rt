//! The watcher that counts the edges of the registers.

ghost use Rattle.std.specs.Prelude.{◌≡◌};

use crate::risen::risen;
use crate::watcher::Watcher;
use cg_netlist::netlist::Netlist;
use cg_text::number::push_number;
use std::alloc::AllocError;

/// Counts the rises of all registers; the count stops at the end of its type.
#[derive(Debug, Drop)]
pub struct EdgeCount {
    rises: u64,
}

impl EdgeCount {
    /// A watcher with the name `edges`.
    pub fn new() -> EdgeCount
        ensures { result.rises ≡ 0 }
    {
        EdgeCount { rises: 0 }
    }
}

impl Watcher for EdgeCount {
    ghost use Rattle.std.specs.Prelude.{◌≡◌, codes};
    ghost use Rattle.cg_report.specs.Counts.{capped, rises};
    ghost use Rattle.cg_report.specs.Lines.{edge_line};

    ghost called = { λ w. codes "edges" };

    ghost says = { λ w. edge_line };

    ghost stands = { λ w c moments. w.rises ≡ capped (rises moments) };

    fn name(&self) -> &str {
        "edges"
    }

    fn begin(&mut self, _netlist: &Netlist) -> Result<(), AllocError> {
        self.rises = 0;
        Ok(())
    }

    fn moment(&mut self, _clock: bool, _nets: &[bool], rose: &[bool]) -> Result<(), AllocError> {
        self.rises = self.rises.saturating_add(risen(rose));
        Ok(())
    }

    fn line(&self, out: &mut Vec<u8>) -> Result<(), AllocError> {
        out.extend_from_slice(b"edges ")?;
        push_number(out, self.rises)
    }
}
