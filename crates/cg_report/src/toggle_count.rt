//! The watcher that counts how often nets change.

ghost use Rattle.std.specs.Prelude.{◌≡◌, ◌≤◌, length, Some, None, if◌then◌else◌};
ghost use Rattle.cg_report.specs.Counts.{differing, toggled};

use crate::watcher::Watcher;
use cg_netlist::netlist::Netlist;
use cg_text::number::push_number;
use std::alloc::{AllocError, Global};

/// Counts the nets that differ between neighbouring moments; the count stops at the end of its type.
///
/// It keeps a bit for each net, those of the last moment. Before the first moment there are none to compare with.
#[derive(Debug, Drop)]
pub struct ToggleCount {
    toggles: u64,
    begun: bool,
    last: Vec<bool>,
}

impl ToggleCount {
    /// A watcher with the name `toggles`.
    pub fn new(alloc: Global) -> ToggleCount {
        ToggleCount {
            toggles: 0,
            begun: false,
            last: Vec::new(alloc),
        }
    }
}

impl Watcher for ToggleCount {
    ghost use Rattle.std.specs.Prelude.{◌≡◌, codes, length, Some, None, if◌then◌else◌};
    ghost use Rattle.cg_report.specs.Counts.{capped, toggles, last_nets};
    ghost use Rattle.cg_report.specs.Lines.{toggle_line};

    ghost called = { λ w. codes "toggles" };

    ghost says = { λ w. toggle_line };

    ghost stands = { λ w c moments. (w.toggles ≡ capped (toggles moments)) × (length w.last.items ≡ length c.names)
        × (last_nets moments ≡ (if w.begun then Some w.last.items else None)) };

    fn name(&self) -> &str {
        "toggles"
    }

    fn begin(&mut self, netlist: &Netlist) -> Result<(), AllocError> {
        let nets = netlist.nets() as usize;
        self.last.clear();
        self.last.resize(nets, false)?;
        self.toggles = 0;
        self.begun = false;
        Ok(())
    }

    fn moment(&mut self, _clock: bool, nets: &[bool], _rose: &[bool]) -> Result<(), AllocError> {
        let more = toggled(self.begun, &self.last, nets);
        self.toggles = self.toggles.saturating_add(more);
        self.begun = true;
        self.last.copy_from_slice(nets);
        Ok(())
    }

    fn line(&self, out: &mut Vec<u8>) -> Result<(), AllocError> {
        out.extend_from_slice(b"toggles ")?;
        push_number(out, self.toggles)
    }
}

/// How many nets differ from the moment before, where there was one.
fn toggled(begun: bool, before: &[bool], now: &[bool]) -> u64
    requires { length before.now ≡ length now.now }
    ensures { result ≡ toggled (if begun then Some before.now else None) now.now }
{
    if begun {
        differing(before, now) as u64
    } else {
        0
    }
}

/// At how many places two lists of bits differ.
#[tactic(auto, using(crate::proofs::Counting::differing_on))]
fn differing(before: &[bool], now: &[bool]) -> usize
    requires { length before.now ≡ length now.now }
    ensures places { result ≡ differing before.now now.now }
    ensures within { result ≤ length before.now }
{
    let mut count = 0;
    for (place, bit) in before.iter().enumerate() {
        if *bit != now[place] {
            count += 1;
        }
    }
    count
}
