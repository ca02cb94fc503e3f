//! The delay registers that were added to a machine, found by the net that they delay.

ghost use Rattle.std.specs.Prelude.{◌≡◌, ◌<◌, ◌++◌, ◌∷◌, [], None, OnErr, OnOk, Some, length, map, nat_eq, slice_get};
ghost use Rattle.cg_machine.specs.inner.Putting.{put_bits};
ghost use Rattle.std.specs.List.{All, find};
ghost use Rattle.std.specs.Option.{option_map};

use cg_net::id::NetId;
use indexmap::IndexMap;
use std::alloc::{AllocError, Global};
use std::marker::Model;

/// Delay registers in order of addition, of each net at most one. Clauses see the list of the nets, each with the
/// output net of its register.
#[derive(Drop)]
pub(crate) struct Delays {
    by_net: IndexMap<u32, NetId>,
}

impl Model for Delays {
    ghost use Rattle.std.specs.Prelude.{List, ℕ};

    ghost Value = { List (ℕ × ℕ) };

    ghost view = { λ d. d.by_net.entries };
}

impl Delays {
    /// No delay registers yet.
    pub(crate) fn new(alloc: Global) -> Delays
        ensures { result ≡ [] }
    {
        Delays {
            by_net: IndexMap::new(alloc),
        }
    }

    /// How many delay registers there are.
    pub(crate) fn len(&self) -> usize
        ensures { result ≡ length self.now }
    {
        self.by_net.len()
    }

    /// The net and the output of the delay register of this number.
    pub(crate) fn delay(&self, number: usize) -> (NetId, NetId)
        requires { number < length self.now }
        ensures { slice_get self.now number ≡ Some (result.0, result.1) }
    {
        let (net, output) = self.by_net.get_index(number).unwrap();
        (NetId::new(*net), *output)
    }

    /// The output of the delay register of a net, if it is there.
    pub(crate) fn find(&self, net: NetId) -> Option<NetId>
        ensures { result ≡ option_map (λ delay. delay.1) (find (λ delay. nat_eq net delay.0) self.now) }
    {
        self.by_net.get(&net.number()).copied()
    }

    /// Puts the delay register of a net, which has none, behind the others.
    pub(crate) fn push(&mut self, net: NetId, output: NetId) -> Result<(), AllocError>
        requires absent { find (λ delay. nat_eq net delay.0) self.old ≡ None }
        ensures pushed { OnOk result (self.new ≡ self.old ++ (net, output) ∷ []) }
        ensures unchanged { OnErr result (self.new ≡ self.old) }
    {
        self.by_net.insert(net.number(), output)?;
        Ok(())
    }

    /// Puts at the outputs of the delay registers their bits.
    pub(crate) fn put(&self, state: &[bool], values: &mut [bool])
        requires state { length state.now ≡ length self.now }
        requires nets { All (λ delay. delay.1 < length values.old) self.now }
        ensures { values.new ≡ put_bits (map (λ delay. delay.1) self.now) state.now values.old }
    {
        for number in 0..self.len() {
            let (_, output) = self.delay(number);
            values[output.number() as usize] = state[number];
        }
    }
}
