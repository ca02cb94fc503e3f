//! A walk back over logic cells that may end before it has found a whole cone.

ghost use Rattle.std.specs.Prelude.{◌≡◌, ℕ, List, [], true, IfOk, OnOk, IfSome};
ghost use Rattle.cg_machine.specs.Added.{own_netlist};
ghost use Rattle.cg_net.specs.NetSets.{is_in};
ghost use Rattle.cg_netlist.specs.Drivers.{IsDriver};
ghost use Rattle.cg_netlist.specs.declared.driver.Driver.TheVariants.{Cell};
ghost use Rattle.cg_stage_groups.specs.inner.Front.{AreAmong, IsFront};
ghost use Rattle.cg_stage_groups.specs.inner.Reaching.{AreOwn};

use cg_machine::machine::Machine;
use cg_net::id::{CellId, NetId};
use cg_net::net_set::NetSet;
use cg_netlist::driver::Driver;
use std::alloc::{AllocError, Global};

/// The front part of a cone: the nets that a walk back has found, and those of them that it has not looked at yet.
///
/// The net that was found last is looked at first, so that the walk soon comes to the edge of the cone, where it may end.
#[derive(Drop)]
pub(crate) struct Front {
    /// The nets that were found.
    pub(crate) found: NetSet,

    /// Those that are looked at next, the last of them first.
    ahead: Vec<NetId>,
}

impl Front {
    /// Without nets; takes no memory.
    pub(crate) fn new(alloc: Global) -> Front
        ensures { result.found ≡ [] }
    {
        Front {
            found: NetSet::new(alloc),
            ahead: Vec::new(alloc),
        }
    }

    /// Begins at these nets of a machine's netlist, with an empty set for the nets that are found.
    pub(crate) fn begin(&mut self, machine: &Machine, roots: &[NetId]) -> Result<(), AllocError>
        requires empty { self.old.found ≡ [] }
        requires own { AreOwn machine.now roots.now }
        ensures { OnOk result (IsFront machine.now roots.now self.new.found self.new.ahead.items) }
    {
        let _netlist = machine.netlist();
        self.ahead.clear();
        self.found.extend(roots)?;
        put_ahead(&self.found, 0, &mut self.ahead)?;
        Ok(())
    }

    /// The next net, where there is one. The inputs of a logic cell that drives it are found with it.
    pub(crate) fn next(&mut self, machine: &Machine) -> Result<Option<NetId>, AllocError>
        requires own { AreOwn machine.now self.old.found }
        requires ahead { AreAmong self.old.ahead.items self.old.found }
        ensures front { OnOk result ((roots : List ℕ) → IsFront machine.now roots self.old.found self.old.ahead.items
            → IsFront machine.now roots self.new.found self.new.ahead.items) }
        ensures found { IfOk result (λ next. IfSome next (λ net. is_in self.new.found net ≡ true)) }
    {
        match self.ahead.pop() {
            Some(net) => {
                self.look_behind(machine, net)?;
                Ok(Some(net))
            }
            None => Ok(None),
        }
    }

    /// Finds the inputs of the logic cell that drives a net that was found, where one does.
    fn look_behind(&mut self, machine: &Machine, net: NetId) -> Result<(), AllocError>
        requires own { AreOwn machine.now self.old.found }
        requires ahead { AreAmong self.old.ahead.items self.old.found }
        requires net { is_in self.old.found net ≡ true }
        ensures front { OnOk result ((roots : List ℕ) → IsFront machine.now roots self.old.found self.old.ahead.items
            → IsFront machine.now roots self.new.found self.new.ahead.items) }
        ensures found { OnOk result (is_in self.new.found net ≡ true) }
    {
        match machine.netlist().driver(net) {
            Driver::Cell(id) => self.find_inputs(machine, net, id),
            _ => Ok(()),
        }
    }

    /// Finds the inputs of a logic cell that drives a net that was found.
    fn find_inputs(&mut self, machine: &Machine, net: NetId, id: CellId) -> Result<(), AllocError>
        requires ahead { AreAmong self.old.ahead.items self.old.found }
        requires net { is_in self.old.found net ≡ true }
        requires drives { IsDriver (own_netlist machine.now) net (Cell id) }
        ensures front { OnOk result ((roots : List ℕ) → IsFront machine.now roots self.old.found self.old.ahead.items
            → IsFront machine.now roots self.new.found self.new.ahead.items) }
        ensures found { OnOk result (is_in self.new.found net ≡ true) }
    {
        let netlist = machine.netlist();
        let _nets = netlist.nets();
        let first = self.found.len();
        self.found.extend(netlist.cell(id).inputs)?;
        put_ahead(&self.found, first, &mut self.ahead)?;
        Ok(())
    }

    /// Takes all nets out, at the cost of as many.
    pub(crate) fn clear(&mut self)
        ensures { self.new.found ≡ [] }
    {
        self.found.clear();
        self.ahead.clear();
    }
}

/// Puts the nets that were found from a place on behind those that are looked at next.
fn put_ahead(found: &NetSet, first: usize, ahead: &mut Vec<NetId>) -> Result<(), AllocError>
    requires { AreAmong ahead.old.items found.now }
    ensures { OnOk result (AreAmong ahead.new.items found.now) }
{
    for place in first..found.len() {
        ahead.push(found.net(place))?;
    }
    Ok(())
}
