//! The readers of nets while they are found.

ghost use Rattle.std.specs.Prelude.{◌≡◌, ◌<◌, ◌++◌, ◌∷◌, [], length, replicate, slice_index_or, slice_set, IfOk, OnOk};
ghost use Rattle.cg_edge.specs.inner.Keeping.{readers_at};
ghost use Rattle.cg_edge.specs.inner.Spans.{AreApart, AreEmpty};

use crate::narrow::narrow;
use crate::readers::{Readers, Span};
use cg_net::id::NetId;
use std::alloc::{AllocError, Global};
use std::marker::Model;

/// For each net the places that are found so far, with room for as many as there will be.
///
/// They stand in one list from the first on. Why not in a list for each net, which grows: there would be as many lists as nets, and
/// each takes memory of its own.
///
/// Clauses see the lists, and how many places each has room for.
#[derive(Drop)]
pub(crate) struct Filling {
    spans: Vec<Span>,
    places: Vec<u32>,
    room: Vec<u32>,
}

impl Model for Filling {
    ghost use Rattle.std.specs.Prelude.{length, map};
    ghost use Rattle.cg_edge.specs.inner.Spans.{AreApart, Filled, spanned};

    ghost Value = { Filled };

    ghost view = { λ f. record { lists = map (spanned f.places.items) f.spans.items; room = f.room.items } };

    ghost invariant = { λ f. AreApart f.room.items f.spans.items (length f.places.items) };
}

impl Filling {
    /// No places yet, with room for so many at each net.
    pub(crate) fn new(alloc: Global, room: Vec<u32>) -> Result<Filling, AllocError>
        ensures none { IfOk result (λ filling. filling.lists ≡ replicate (length room.items) []) }
        ensures room { IfOk result (λ filling. filling.room ≡ room.items) }
    {
        let mut spans = Vec::with_capacity(alloc, room.len())?;
        let end = lay(&room, &mut spans)?;
        Ok(Filling {
            spans,
            places: vec![in alloc; 0; end]?,
            room,
        })
    }

    /// Puts a place behind the others of a net.
    pub(crate) fn push(&mut self, net: NetId, place: u32)
        requires net { net < length self.old.lists }
        requires room { length (readers_at self.old.lists net) < slice_index_or self.old.room net 0 }
        ensures { self.new ≡ record self.old { lists = slice_set self.old.lists net (readers_at self.old.lists net ++ place ∷ []) } }
    {
        let number = net.number() as usize;
        let Span { first, count } = self.spans[number];
        let room = self.room[number];
        prove!(count < room);
        self.places[first as usize + count as usize] = place;
        self.spans[number] = Span {
            first,
            count: count + 1,
        };
    }

    /// The readers, where all places are found.
    pub(crate) fn finish(self) -> Readers
        ensures { result ≡ self.lists }
    {
        Readers {
            spans: self.spans,
            places: self.places,
        }
    }
}

/// Lays spans one behind the other, with room for so many places each, of which none is taken. Answers where the last one ends.
fn lay(room: &[u32], spans: &mut Vec<Span>) -> Result<usize, AllocError>
    requires { spans.old.items ≡ [] }
    ensures long { OnOk result (length spans.new.items ≡ length room.now) }
    ensures apart { IfOk result (AreApart room.now spans.new.items) }
    ensures none { AreEmpty spans.new.items }
{
    let mut end = 0usize;
    for count in room {
        let first = narrow(end)?;
        spans.push(Span { first, count: 0 })?;
        end = first as usize + *count as usize;
    }
    Ok(end)
}
