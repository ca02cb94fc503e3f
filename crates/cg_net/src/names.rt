//! The names of nets, numbered in the order in which they came, and the keys of the table that they stand in.

ghost use Rattle.std.specs.Prelude.{◌≡◌, ◌≢◌, ◌∷◌, [], ◌<◌, ◌^◌, Some, false, length, nat_eq};
ghost use Rattle.std.specs.Prelude.{slice_get, IfOk, MatchOption, OnErr, OnOk, map};
ghost use Rattle.std.specs.Cmp.Lexicographic.{nat_list_eq_equiv, on_texts_equal, pointwise};
ghost use Rattle.std.specs.Cmp.Rules.{hashing};
ghost use Rattle.std.specs.Cmp.{partial_equiv_from_equiv};
ghost use Rattle.std.specs.List.{All, AllPairs};
ghost use Rattle.std.specs.Ordering.{on};
ghost use Rattle.std.proofs.Common.{rules};
ghost use Rattle.cg_net.specs.Names.{is_known, net_name, with_name};
ghost use Rattle.cg_net.specs.inner.NamePlaces.{IsPlaced};

use crate::id::NetId;
use indexmap::{Equivalent, IndexSet};
use smallvec::SmallVec;
use std::alloc::{AllocError, Global};
use std::hash::{Hash, Hasher};
use std::marker::Model;

/// A table of names, each of which stands in it once. A name is found by its bytes, or by its number: the place at
/// which it came in.
///
/// Clauses see the list of names.
#[derive(Drop)]
pub struct NetNames {
    set: IndexSet<Key>,
}

impl Model for NetNames {
    ghost use Rattle.std.specs.Prelude.{List, ℕ};

    ghost Value = { List (List ℕ) };

    ghost view = { λ n. n.set.keys };
}

impl NetNames {
    /// No names yet.
    pub fn new(alloc: Global) -> NetNames
        ensures { result ≡ [] }
    {
        NetNames {
            set: IndexSet::new(alloc),
        }
    }

    /// How many names there are.
    pub fn len(&self) -> usize
        ensures count { result ≡ length self.now }
        ensures different { AllPairs (λ name other. name ≢ other) self.now }
    {
        self.set.len()
    }

    /// The name of this number.
    pub fn name(&self, number: usize) -> &[u8]
        requires { number < length self.now }
        ensures { slice_get self.now number ≡ Some result.now }
    {
        self.set[number].bytes()
    }

    /// The number of a name, or `None` where it is none of these.
    pub fn find(&self, name: &[u8]) -> Option<usize>
        ensures { MatchOption result (is_known self.now name.now ≡ false) (λ i. slice_get self.now i ≡ Some name.now) }
    {
        self.set.get_index_of(Sought { name })
    }

    /// The number of a name, which goes behind the others where it is none of them yet.
    pub fn intern(&mut self, alloc: Global, name: &[u8]) -> Result<usize, AllocError>
        ensures names { OnOk result (self.new ≡ with_name self.old name.now) }
        ensures number { IfOk result (λ i. slice_get self.new i ≡ Some name.now) }
        ensures err { OnErr result (self.new ≡ self.old) }
    {
        if let Some(number) = self.set.get_index_of(Sought { name }) {
            return Ok(number);
        }
        let number = self.set.len();
        let key = Key::new(alloc, name)?;
        self.set.insert(key)?;
        Ok(number)
    }
}

/// The names of the nets of an order. They stay in the table in which they came: beside it lie the net of each place, and
/// for each net a place at which the order has it. A net that does not stand in the order has some place all the same, at which
/// the order has another net or none.
///
/// Clauses see the list of names.
#[derive(Drop)]
pub struct OrderedNames {
    names: NetNames,
    order: Vec<NetId>,
    places: Vec<u32>,
}

impl Model for OrderedNames {
    ghost use Rattle.std.specs.Prelude.{List, ℕ, map};
    ghost use Rattle.cg_net.specs.inner.NamePlaces.{ArePlaced};
    ghost use Rattle.cg_net.specs.Names.{net_name};

    ghost Value = { List (List ℕ) };

    ghost view = { λ n. map (net_name n.names) n.order.items };

    ghost invariant = { λ n. ArePlaced n.names n.order.items n.places.items };
}

impl OrderedNames {
    /// The names of these nets, in this order.
    pub fn new(
        alloc: Global,
        names: NetNames,
        order: Vec<NetId>,
    ) -> Result<OrderedNames, AllocError>
        requires nets { All (λ net. net < length names) order.items }
        requires few { length order.items < 2 ^ 32 }
        ensures { IfOk result (λ ordered. ordered ≡ map (net_name names) order.items) }
    {
        let places = places(alloc, names.len(), &order)?;
        Ok(OrderedNames {
            names,
            order,
            places,
        })
    }

    /// How many names there are.
    pub fn len(&self) -> usize
        ensures count { result ≡ length self.now }
    {
        self.order.len()
    }

    /// The name at this place.
    pub fn name(&self, place: usize) -> &[u8]
        requires { place < length self.now }
        ensures { slice_get self.now place ≡ Some result.now }
    {
        self.names.name(self.order[place].number() as usize)
    }

    /// The place of a name, or `None` where it is none of these.
    pub fn find(&self, name: &[u8]) -> Option<usize>
        ensures { MatchOption result (is_known self.now name.now ≡ false) (λ i. slice_get self.now i ≡ Some name.now) }
    {
        let number = self.names.find(name)?;
        let place = self.places[number] as usize;
        if place < self.order.len() && self.order[place].number() as usize == number {
            Some(place)
        } else {
            None
        }
    }
}

/// For each of `count` nets a place at which an order has it, or 0 where it does not stand there.
fn places(alloc: Global, count: usize, order: &[NetId]) -> Result<Vec<u32>, AllocError>
    requires nets { All (λ net. net < count) order.now }
    requires few { length order.now < 2 ^ 32 }
    ensures long { IfOk result (λ places. length places.items ≡ count) }
    ensures placed { IfOk result (λ places. All (IsPlaced order.now places.items) order.now) }
{
    let mut places = vec![in alloc; 0; count]?;
    for place in 0..order.len() {
        places[order[place].number() as usize] = place as u32;
    }
    Ok(places)
}

/// So many bytes lie in the value itself.
const INLINE: usize = 16;

/// A name in a table. It is hashed as one text, which is quicker than byte by byte, as a `Vec` would be.
#[derive(Drop)]
struct Key {
    bytes: SmallVec<u8, INLINE>,
}

impl Model for Key {
    ghost use Rattle.std.specs.Prelude.{List, ℕ};

    ghost Value = { List ℕ };

    ghost view = { λ k. k.bytes.items };
}

impl Key {
    /// A name of its own copy of these bytes.
    fn new(alloc: Global, name: &[u8]) -> Result<Key, AllocError>
        ensures { IfOk result (λ key. key ≡ name.now) }
    {
        let bytes = SmallVec::from_slice(alloc, name)?;
        Ok(Key { bytes })
    }

    /// The bytes of the name.
    fn bytes(&self) -> &[u8]
        ensures bytes { result.now ≡ self.now }
    {
        self.bytes.as_slice()
    }
}

impl PartialEq for Key {
    ghost eq = { pointwise nat_eq };

    ghost laws = { partial_equiv_from_equiv nat_list_eq_equiv };

    fn eq(&self, other: &Key) -> bool {
        self.bytes() == other.bytes()
    }
}

impl Eq for Key {
    ghost laws = { nat_list_eq_equiv };
}

impl Hash for Key {
    ghost hash_input = { λ name. name ∷ [] };

    ghost respects_eq = { Prim.search (hashing, rules) };

    fn hash<H: Hasher>(&self, state: &mut H) {
        state.write(self.bytes());
    }
}

/// A name that is looked for in a table.
#[derive(Clone, Copy)]
struct Sought<'a> {
    name: &'a [u8],
}

impl<'a> PartialEq for Sought<'a> {
    ghost eq = { on (λ s. s.name.now) (pointwise nat_eq) };

    ghost laws = { partial_equiv_from_equiv (on_texts_equal (λ s. s.name.now)) };

    fn eq(&self, other: &Sought<'a>) -> bool {
        self.name == other.name
    }
}

impl<'a> Eq for Sought<'a> {
    ghost laws = { on_texts_equal (λ s. s.name.now) };
}

impl<'a> Hash for Sought<'a> {
    ghost hash_input = { λ s. s.name.now ∷ [] };

    ghost respects_eq = { Prim.search (hashing, rules) };

    fn hash<H: Hasher>(&self, state: &mut H) {
        state.write(self.name);
    }
}

impl<'a> Equivalent<Key> for Sought<'a> {
    ghost equivalent = { λ s name. pointwise nat_eq s.name.now name };

    ghost respects_hash = { Prim.search (hashing, rules) };

    ghost respects_eq = { λ s. nat_list_eq_equiv.congr s.name.now };

    fn equivalent(&self, key: &Key) -> bool {
        self.name == key.bytes()
    }
}
