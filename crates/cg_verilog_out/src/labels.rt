//! The labels of placed cells.

ghost use Rattle.std.specs.Prelude.{◌≡◌, ◌+◌, ◌<◌, ◌^◌, [], OnOk, drop, length, slice_index_or};
ghost use Rattle.cg_netlist.specs.Wiring.{named};
ghost use Rattle.cg_verilog_text.specs.WrittenItems.{label, labels, most_placed};
ghost use Rattle.cg_verilog_out.specs.inner.Numbering.{left};

use cg_netlist::netlist::Netlist;
use cg_text::number::push_number;
use std::alloc::{AllocError, Global};
use std::marker::Model;

/// Labels for placed cells: `u` and a number, where no net has that name. The numbers go up, so all labels together cost as
/// much as there are nets and labels.
#[derive(Drop)]
pub(crate) struct Labels<'a> {
    netlist: &'a Netlist,
    next: u64,
    end: u64,
    text: Vec<u8>,
}

impl<'a> Model for Labels<'a> {
    ghost use Rattle.cg_verilog_out.specs.inner.Numbering.{Numbers};

    ghost Value = { Numbers };

    ghost view = { λ l. record { names = l.netlist.now.names; next = l.next; end = l.end; text = l.text.items } };
}

impl<'a> Labels<'a> {
    /// Labels for the placed cells of a netlist.
    pub(crate) fn new(alloc: Global, netlist: &'a Netlist) -> Labels<'a>
        ensures { left result ≡ labels netlist.entry.now.names (most_placed (named netlist.entry.now)) }
    {
        Labels {
            netlist,
            next: 0,
            end: count(netlist),
            text: Vec::new(alloc),
        }
    }

    /// The label of the last placed cell.
    pub(crate) fn text(&self) -> &[u8]
        ensures { result.now ≡ self.now.text }
    {
        &self.text
    }

    /// Goes on to the next label. There is one, since there are more numbers than nets; behind the last it would be empty.
    pub(crate) fn advance(&mut self) -> Result<(), AllocError>
        ensures text { OnOk result (self.new.text ≡ slice_index_or (left self.old) 0 []) }
        ensures rest { OnOk result (left self.new ≡ drop 1 (left self.old)) }
    {
        'numbers: while self.next < self.end {
            let number = self.next;
            self.next += 1;
            self.write(number)?;
            match self.netlist.find(&self.text) {
                None => return Ok(()),
                Some(_) => {}
            }
        }
        self.text.clear();
        Ok(())
    }

    /// Writes the label of a number.
    fn write(&mut self, number: u64) -> Result<(), AllocError>
        ensures text { OnOk result (self.new.text ≡ label number) }
        ensures next { self.new.next ≡ self.old.next }
        ensures names { self.new.names ≡ self.old.names }
        ensures end { self.new.end ≡ self.old.end }
    {
        self.text.clear();
        self.text.push(b'u')?;
        push_number(&mut self.text, number)
    }
}

/// As many as there are nets, cells and registers: with so many numbers there is a label for each placed cell.
fn count(netlist: &Netlist) -> u64
    ensures { result ≡ length netlist.now.names + most_placed (named netlist.now) }
{
    let placed = u64::from(netlist.cells())
        + u64::from(netlist.gaters())
        + u64::from(netlist.registers());
    u64::from(netlist.nets()) + placed
}
