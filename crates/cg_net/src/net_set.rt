//! Nets that are taken once.

ghost use Rattle.std.specs.Prelude.{◌≡◌, ◌<◌, ◌^◌, ℕ, [], Some, false, OnErr, OnOk, length, slice_get};
ghost use Rattle.cg_net.specs.NetSets.{is_in, with_net, with_nets};
ghost use Rattle.cg_net.specs.Marks.{AreMarked, is_marked};

use crate::id::NetId;
use std::alloc::{AllocError, Global};
use std::marker::Model;

/// Nets in the order in which they came; one that is there is not put in again. A mark for each net tells at once whether
/// it is there.
///
/// Clauses see the list of the nets.
#[derive(Drop)]
pub struct NetSet {
    nets: Vec<NetId>,
    marks: Vec<bool>,
}

impl Model for NetSet {
    ghost use Rattle.std.specs.Prelude.{List, ℕ};
    ghost use Rattle.cg_net.specs.Marks.{AreMarked};

    ghost Value = { List ℕ };

    ghost view = { λ s. s.nets.items };

    ghost invariant = { λ s. AreMarked s.marks.items s.nets.items };
}

impl NetSet {
    /// No nets yet.
    pub fn new(alloc: Global) -> NetSet
        ensures { result ≡ [] }
    {
        NetSet {
            nets: Vec::new(alloc),
            marks: Vec::new(alloc),
        }
    }

    /// Whether a net is among them.
    pub fn contains(&self, net: NetId) -> bool
        ensures { result ≡ is_in self.now net }
    {
        mark_at(&self.marks, net.number() as usize)
    }

    /// Puts a net behind the others, if it is not among them. Where memory is wanting nothing changes.
    pub fn insert(&mut self, net: NetId) -> Result<(), AllocError>
        ensures put { OnOk result (self.new ≡ with_net self.old net) }
        ensures same { OnErr result (self.new ≡ self.old) }
    {
        let place = net.number() as usize;
        reach(&mut self.marks, place)?;
        if self.marks[place] {
            return Ok(());
        }
        self.nets.push(net)?;
        self.marks[place] = true;
        Ok(())
    }

    /// Puts each of these nets that is not among the others behind them. Where memory is wanting some may be there.
    pub fn extend(&mut self, nets: &[NetId]) -> Result<(), AllocError>
        ensures { OnOk result (self.new ≡ with_nets self.old nets.now) }
    {
        for net in nets {
            self.insert(*net)?;
        }
        Ok(())
    }

    /// How many nets there are.
    pub fn len(&self) -> usize
        ensures { result ≡ length self.now }
    {
        self.nets.len()
    }

    /// The net at a place.
    pub fn net(&self, place: usize) -> NetId
        requires { place < length self.now }
        ensures { slice_get self.now place ≡ Some result }
    {
        self.nets[place]
    }

    /// Takes all nets out, at the cost of as many: the marks stay, unset.
    pub fn clear(&mut self)
        ensures { self.new ≡ [] }
    {
        unmark(&self.nets, &mut self.marks);
        self.nets.clear();
    }

    /// The nets in their order.
    pub fn into_vec(self) -> Vec<NetId>
        ensures { result.items ≡ self }
    {
        let NetSet { nets, marks: _ } = self;
        nets
    }
}

/// The mark at a place; behind the last there is none.
fn mark_at(marks: &[bool], place: usize) -> bool
    ensures { result ≡ is_marked marks.now place }
{
    match marks.get(place) {
        Some(mark) => *mark,
        None => false,
    }
}

/// Makes the marks reach up to a place, the new ones unset.
fn reach(marks: &mut Vec<bool>, place: usize) -> Result<(), AllocError>
    requires { place < 2 ^ 32 }
    ensures reaches { OnOk result (place < length marks.new.items) }
    ensures same { (net : ℕ) → is_marked marks.new.items net ≡ is_marked marks.old.items net }
{
    for _ in marks.len()..place + 1 {
        marks.push(false)?;
    }
    Ok(())
}

/// Takes away the marks of these nets, which are all the marks.
fn unmark(nets: &[NetId], marks: &mut [bool])
    requires { AreMarked marks.old nets.now }
    ensures { AreMarked marks.new [] }
{
    for net in nets {
        marks[net.number() as usize] = false;
    }
}
