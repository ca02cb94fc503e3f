//! Which logic cells read a net.

ghost use Rattle.std.specs.Prelude.{◌≡◌, ◌+◌, ◌<◌, ℕ, true, length, nat_eq, slice_get, Some, IfOk};
ghost use Rattle.std.specs.List.{All, count_by};
ghost use Rattle.cg_net.specs.NetSets.{is_in};
ghost use Rattle.cg_netlist.specs.Nets.{walk_order};
ghost use Rattle.cg_edge.specs.inner.Keeping.{AreReaders, IsAdded, MarksMore, readers_at, walk_of};
ghost use Rattle.cg_edge.specs.inner.Reads.{HasRoom};

use crate::filling::Filling;
use crate::marks::Marks;
use crate::narrow::narrow;
use crate::reads::reads;
use cg_net::id::{CellId, NetId};
use cg_netlist::netlist::Netlist;
use std::alloc::{AllocError, Global};
use std::marker::Model;

/// Where the readers of a net stand among those of all nets.
#[derive(Clone, Copy)]
pub(crate) struct Span {
    pub(crate) first: u32,
    pub(crate) count: u32,
}

/// For each net the places in walk order of the logic cells that read it.
///
/// They stand in one list, net after net, so that no other place in memory is fetched for a net than for the one before.
#[derive(Drop)]
pub(crate) struct Readers {
    pub(crate) spans: Vec<Span>,
    pub(crate) places: Vec<u32>,
}

impl Model for Readers {
    ghost use Rattle.std.specs.Prelude.{List, ℕ, length, map};
    ghost use Rattle.std.specs.List.{All};
    ghost use Rattle.cg_edge.specs.inner.Spans.{IsWithin, spanned};

    ghost Value = { List (List ℕ) };

    ghost view = { λ r. map (spanned r.places.items) r.spans.items };

    ghost invariant = { λ r. All (IsWithin (length r.places.items)) r.spans.items };
}

impl Readers {
    /// The readers of the nets of a netlist whose cells in walk order are `order`.
    pub(crate) fn new(
        alloc: Global,
        netlist: &Netlist,
        order: &[CellId],
    ) -> Result<Readers, AllocError>
        requires { order.now ≡ walk_order netlist.now.cells }
        ensures { IfOk result (λ readers. AreReaders (length netlist.now.names) (length order.now) (walk_of netlist.now) readers) }
    {
        let _nets = netlist.nets();
        let mut filling = Filling::new(alloc, reads(alloc, netlist, order)?)?;
        for place in 0..order.len() {
            add(
                netlist.cell(order[place]).inputs,
                narrow(place)?,
                &mut filling,
            );
        }
        Ok(filling.finish())
    }

    /// The places of the cells that read a net.
    fn of(&self, net: NetId) -> &[u32]
        requires { net < length self.now }
        ensures { result.now ≡ readers_at self.now net }
    {
        let span = self.spans[net.number() as usize];
        &self.places[span.first as usize..][..span.count as usize]
    }

    /// Marks the places of the cells that read a net.
    pub(crate) fn mark(&self, net: NetId, marks: &mut Marks)
        requires net { net < length self.now }
        requires marks { (p : ℕ) → is_in (readers_at self.now net) p ≡ true → p < length marks.old }
        ensures more { MarksMore marks.old marks.new }
        ensures told { (p : ℕ) → is_in (readers_at self.now net) p ≡ true → slice_get marks.new p ≡ Some true }
    {
        mark_all(self.of(net), marks)
    }
}

/// Marks these places.
fn mark_all(places: &[u32], marks: &mut Marks)
    requires { All (λ p. p < length marks.old) places.now }
    ensures more { MarksMore marks.old marks.new }
    ensures told { (p : ℕ) → is_in places.now p ≡ true → slice_get marks.new p ≡ Some true }
{
    for place in places {
        marks.add(*place as usize);
    }
}

/// Adds a place to the readers of each of these nets.
fn add(inputs: &[NetId], place: u32, filling: &mut Filling)
    requires within { All (λ net. net < length filling.old.lists) inputs.now }
    requires room { HasRoom filling.old inputs.now }
    ensures added { IsAdded inputs.now place filling.old.lists filling.new.lists }
    ensures room { filling.new.room ≡ filling.old.room }
    ensures more { (x : ℕ) → x < length filling.old.lists
        → length (readers_at filling.new.lists x) ≡ length (readers_at filling.old.lists x) + count_by (nat_eq x) inputs.now }
{
    for net in inputs {
        filling.push(*net, place);
    }
}
