//! A watcher of a kind of its own.

use cg_netlist::netlist::Netlist;
use cg_report::watcher::Watcher;
use cg_text::number::push_number;
use std::alloc::AllocError;

/// The most moments that the watcher with the name `few` has memory for.
const FEW: u64 = 2;

/// Counts the moments at which the clock is high; the count stops at the end of its type.
#[derive(Debug, Drop)]
pub struct Highs {
    highs: u64,
    few: bool,
}

impl Highs {
    /// A watcher with the name `highs`, which has memory for every moment.
    pub fn new() -> Highs {
        Highs {
            highs: 0,
            few: false,
        }
    }

    /// A watcher with the name `few`, which finds no memory for a third moment with a high clock.
    pub fn few() -> Highs {
        Highs {
            highs: 0,
            few: true,
        }
    }
}

impl Watcher for Highs {
    ghost use Rattle.std.specs.Prelude.{◌≡◌, ◌++◌, codes, if◌then◌else◌};
    ghost use Rattle.std.specs.Fmt.{decimal};
    ghost use Rattle.std.specs.List.{count_by};
    ghost use Rattle.cg_report.specs.Counts.{capped};

    ghost called = { λ w. if w.few then codes "few" else codes "highs" };

    ghost says = { λ w c moments. codes "highs " ++ decimal (capped (count_by (λ now. now.clock) moments)) };

    ghost stands = { λ w c moments. w.highs ≡ capped (count_by (λ now. now.clock) moments) };

    fn name(&self) -> &str {
        if self.few { "few" } else { "highs" }
    }

    fn begin(&mut self, _netlist: &Netlist) -> Result<(), AllocError> {
        self.highs = 0;
        Ok(())
    }

    fn moment(&mut self, clock: bool, _nets: &[bool], _rose: &[bool]) -> Result<(), AllocError> {
        if !clock {
            return Ok(());
        }
        if self.few && self.highs >= FEW {
            return Err(AllocError);
        }
        self.highs = self.highs.saturating_add(1);
        Ok(())
    }

    fn line(&self, out: &mut Vec<u8>) -> Result<(), AllocError> {
        out.extend_from_slice(b"highs ")?;
        push_number(out, self.highs)
    }
}
