//! Masks of nets.

ghost use Rattle.std.specs.Prelude.{◌≡◌, ◌==◌, ◌<◌, ◌^◌, ◌||◌, ◌&&◌, ◌++◌, ◌∷◌, [], ℕ, if◌then◌else◌, length, nat_eq, OnErr, OnOk};
ghost use Rattle.std.specs.Int.Bits.{bit_or};
ghost use Rattle.cg_hold_widths.specs.inner.Masks.{AreTouched, has_bit, mask_at};
ghost use Rattle.cg_net.specs.NetSets.{is_in};

use cg_net::id::NetId;
use std::alloc::{AllocError, Global};
use std::marker::Model;

/// A mask of 64 bits for each net, 0 for those behind the last.
///
/// The nets whose masks are not 0 are kept beside them, so that masks are cleared at the cost of these nets alone. Clauses see
/// the masks.
#[derive(Drop)]
pub(crate) struct Masks {
    masks: Vec<u64>,
    touched: Vec<NetId>,
}

impl Model for Masks {
    ghost use Rattle.std.specs.Prelude.{List, ℕ};
    ghost use Rattle.cg_hold_widths.specs.inner.Masks.{AreTouched};

    ghost Value = { List ℕ };

    ghost view = { λ m. m.masks.items };

    ghost invariant = { λ m. AreTouched m.masks.items m.touched.items };
}

impl Masks {
    /// All masks are 0; takes no memory.
    pub(crate) fn new(alloc: Global) -> Masks
        ensures { result ≡ [] }
    {
        Masks {
            masks: Vec::new(alloc),
            touched: Vec::new(alloc),
        }
    }

    /// The mask of a net.
    pub(crate) fn of(&self, net: NetId) -> u64
        ensures { result ≡ mask_at self.now net }
    {
        match self.masks.get(net.number() as usize) {
            Some(mask) => *mask,
            None => 0,
        }
    }

    /// Puts these bits into the mask of a net.
    fn add(&mut self, net: NetId, bits: u64) -> Result<(), AllocError>
        ensures { OnOk result ((y : ℕ) → mask_at self.new y ≡ (if nat_eq y net then bit_or (mask_at self.old y) bits else mask_at self.old y)) }
    {
        if bits == 0 {
            return Ok(());
        }
        let place = net.number() as usize;
        reach(&mut self.masks, place)?;
        let mask = self.masks[place];
        touch(net, mask, &mut self.touched)?;
        self.masks[place] = mask | bits;
        Ok(())
    }

    /// Puts these bits into the masks of nets.
    pub(crate) fn add_all(&mut self, nets: &[NetId], bits: u64) -> Result<(), AllocError>
        ensures { OnOk result ((i y : ℕ) → has_bit i (mask_at self.new y) ≡ (has_bit i (mask_at self.old y) || (is_in nets.now y && has_bit i bits))) }
    {
        for net in nets {
            self.add(*net, bits)?;
        }
        Ok(())
    }

    /// Sets all masks to 0.
    pub(crate) fn clear(&mut self)
        ensures { (y : ℕ) → mask_at self.new y ≡ 0 }
    {
        clear_all(&self.touched, &mut self.masks);
        self.touched.clear();
    }
}

/// Makes the masks reach up to a place, the new ones 0.
fn reach(masks: &mut Vec<u64>, place: usize) -> Result<(), AllocError>
    requires { place < 2 ^ 32 }
    ensures reaches { OnOk result (place < length masks.new.items) }
    ensures same { (y : ℕ) → mask_at masks.new.items y ≡ mask_at masks.old.items y }
{
    for _ in masks.len()..place + 1 {
        masks.push(0)?;
    }
    Ok(())
}

/// Notes that a net with this mask gets bits: a net whose mask is not 0 is noted already.
fn touch(net: NetId, mask: u64, touched: &mut Vec<NetId>) -> Result<(), AllocError>
    ensures touched { OnOk result (touched.new.items ≡ (if mask == 0 then touched.old.items ++ net ∷ [] else touched.old.items)) }
    ensures same { OnErr result (touched.new.items ≡ touched.old.items) }
{
    if mask != 0 {
        return Ok(());
    }
    touched.push(net)?;
    Ok(())
}

/// Sets the masks of these nets to 0, which are all that are not.
fn clear_all(touched: &[NetId], masks: &mut [u64])
    requires { AreTouched masks.old touched.now }
    ensures { (y : ℕ) → mask_at masks.new y ≡ 0 }
{
    for net in touched {
        masks[net.number() as usize] = 0;
    }
}
