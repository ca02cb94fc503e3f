//! What reads each net, by its number.

ghost use Rattle.std.specs.Prelude.{◌≡◌, ◌<◌, ◌^◌, ◌||◌, ◌&&◌, [], ℕ, nat_eq, length, OnOk};
ghost use Rattle.cg_net.specs.NetSets.{is_in};
ghost use Rattle.cg_claim_reach.specs.Fanout.{readers_at};

use cg_list::Seq;
use cg_net::id::NetId;
use std::alloc::{AllocError, Global};
use std::marker::Model;

/// The numbers of what reads each net, in no order; one may stand there twice. Nets behind the last list have no readers.
///
/// Clauses see the lists.
#[derive(Drop)]
pub(crate) struct Readers {
    alloc: Global,
    lists: Vec<Seq<u32>>,
}

impl Model for Readers {
    ghost use Rattle.std.specs.Prelude.{List, ℕ};

    ghost Value = { List (List ℕ) };

    ghost view = { λ r. r.lists.items };
}

impl Readers {
    /// No readers yet; takes no memory.
    pub(crate) fn new(alloc: Global) -> Readers
        ensures { result ≡ [] }
    {
        Readers {
            alloc,
            lists: Vec::new(alloc),
        }
    }

    /// The readers of a net.
    pub(crate) fn of(&self, net: NetId) -> &[u32]
        ensures { result.now ≡ readers_at self.now net }
    {
        let place = net.number() as usize;
        if place < self.lists.len() {
            self.lists[place].as_slice()
        } else {
            &[]
        }
    }

    /// Notes a reader of a net.
    pub(crate) fn note(&mut self, net: NetId, reader: u32) -> Result<(), AllocError>
        ensures { OnOk result ((y k : ℕ) → is_in (readers_at self.new y) k ≡ (is_in (readers_at self.old y) k || (nat_eq y net && nat_eq k reader))) }
    {
        let place = net.number() as usize;
        reach(self.alloc, &mut self.lists, place)?;
        self.lists[place].push(reader)?;
        Ok(())
    }

    /// Notes a reader of these nets.
    pub(crate) fn note_all(&mut self, nets: &[NetId], reader: u32) -> Result<(), AllocError>
        ensures { OnOk result ((y k : ℕ) → is_in (readers_at self.new y) k ≡ (is_in (readers_at self.old y) k || (is_in nets.now y && nat_eq k reader))) }
    {
        for net in nets {
            self.note(*net, reader)?;
        }
        Ok(())
    }
}

/// Makes the lists reach up to a place, the new ones empty.
fn reach(alloc: Global, lists: &mut Vec<Seq<u32>>, place: usize) -> Result<(), AllocError>
    requires { place < 2 ^ 32 }
    ensures reaches { OnOk result (place < length lists.new.items) }
    ensures same { (y : ℕ) → readers_at lists.new.items y ≡ readers_at lists.old.items y }
{
    for _ in lists.len()..place + 1 {
        lists.push(Seq::new(alloc))?;
    }
    Ok(())
}
