//! What finds cones and supports, one after another.

ghost use Rattle.std.specs.Prelude.{◌≡◌, ◌<◌, ℕ, [], true, length, slice_get, IfOk};
ghost use Rattle.cg_machine.specs.Machine.{walk_of};
ghost use Rattle.cg_net.specs.NetSets.{is_in};
ghost use Rattle.cg_netlist_cone.specs.Cone.{cone_of};
ghost use Rattle.cg_stage_groups.specs.Support.{IsSupport, StandsOnMore, stands_on_free};
ghost use Rattle.cg_stage_groups.specs.inner.Reaching.{AreOwn};

use crate::cone::cone;
use crate::early::{Met, meets_free, meets_more};
use crate::front::Front;
use crate::support::{Support, support_of};
use cg_machine::machine::Machine;
use cg_net::id::{NetId, RegId};
use cg_net::net_set::NetSet;
use std::alloc::{AllocError, Global};

/// Finds cones and supports, one after another, each at the cost of what it reaches.
///
/// It keeps a mark for each net from call to call, so that a call need not make them; each call clears those that it has
/// set.
#[derive(Drop)]
pub struct SupportFinder {
    alloc: Global,
    front: Front,
    met: Met,
    ghost clear: { front.found ≡ [] },
}

impl SupportFinder {
    /// A finder that has found nothing yet; takes no memory.
    pub fn new(alloc: Global) -> SupportFinder {
        SupportFinder {
            alloc,
            front: Front::new(alloc),
            met: Met::new(alloc),
        }
    }

    /// The nets of the cone of these nets of a machine's netlist, by their numbers: these nets, and with the output of a
    /// logic cell its inputs. All are nets of the netlist.
    pub fn cone(&mut self, machine: &Machine, roots: &[NetId]) -> Result<Vec<u32>, AllocError>
        requires { AreOwn machine.now roots.now }
        ensures cone { IfOk result (λ nets. (y : ℕ) → is_in nets.items y ≡ is_in (cone_of (walk_of machine.now) roots.now) y) }
        ensures own { IfOk result (λ nets. AreOwn machine.now nets.items) }
    {
        let nets = cone_nets(self.alloc, machine, roots, &mut self.front.found);
        self.front.clear();
        nets
    }

    /// The support of a register of a machine's netlist.
    pub fn support_of(&mut self, machine: &Machine, reg: RegId) -> Result<Support, AllocError>
        requires { reg < machine.now.own_registers }
        ensures { IfOk result (IsSupport machine.now reg) }
    {
        let support = support_of(self.alloc, machine, reg, &mut self.front.found);
        self.front.clear();
        support
    }

    /// Whether it is soon seen that a data input, or another register without an enable, is in the support of a register of a
    /// machine's netlist: the walk back ends at the first.
    pub fn shows_free(&mut self, machine: &Machine, reg: RegId) -> Result<bool, AllocError>
        requires { reg < machine.now.own_registers }
        ensures { IfOk result (λ free. free ≡ true → stands_on_free machine.now reg ≡ true) }
    {
        let free = meets_free(machine, reg, &mut self.front);
        self.front.clear();
        free
    }

    /// Whether it is soon seen that a register of a machine's netlist and the data inputs and registers that its inputs stand on
    /// are more than `most`: the walk back ends at the first one more.
    pub fn shows_more(
        &mut self,
        machine: &Machine,
        reg: RegId,
        most: u32,
    ) -> Result<bool, AllocError>
        requires { reg < machine.now.own_registers }
        ensures { IfOk result (λ more. more ≡ true → StandsOnMore machine.now reg most) }
    {
        let more = meets_more(machine, reg, most, &mut self.front, &mut self.met);
        self.front.clear();
        more
    }
}

/// The nets of the cone of these nets, with an empty set for the nets that are found.
fn cone_nets(
    alloc: Global,
    machine: &Machine,
    roots: &[NetId],
    found: &mut NetSet,
) -> Result<Vec<u32>, AllocError>
    requires empty { found.old ≡ [] }
    requires own { AreOwn machine.now roots.now }
    ensures cone { IfOk result (λ nets. (y : ℕ) → is_in nets.items y ≡ is_in (cone_of (walk_of machine.now) roots.now) y) }
    ensures own { IfOk result (λ nets. AreOwn machine.now nets.items) }
{
    cone(machine, roots, found)?;
    let nets = numbers_of(alloc, found)?;
    Ok(nets)
}

/// The numbers of the nets of a set.
fn numbers_of(alloc: Global, nets: &NetSet) -> Result<Vec<u32>, AllocError>
    ensures { IfOk result (λ numbers. numbers.items ≡ nets.now) }
{
    let mut numbers = Vec::with_capacity(alloc, nets.len())?;
    for place in 0..nets.len() {
        numbers.push(nets.net(place).number())?;
    }
    Ok(numbers)
}
