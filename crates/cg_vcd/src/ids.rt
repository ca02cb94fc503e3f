//! The ids of a text, numbered in the order in which they come.

ghost use Rattle.std.specs.Prelude.{◌≡◌, ◌≢◌, ◌<◌, ◌≤◌, ◌+◌, ◌^◌, [], ℕ, List, Some, false, true, length, slice_get, slice_index_or, IfOk, MatchOption, OnErr, OnOk};
ghost use Rattle.std.specs.List.{AllPairs, list_all};
ghost use Rattle.cg_net.specs.Names.{is_known, with_name};
ghost use Rattle.cg_vcd.specs.inner.IdPlaces.{digit_at, is_printable, is_short, lookup, number_at, place_of};

use crate::key::Key;
use std::alloc::{AllocError, Global};
use std::collections::BTreeMap;
use std::marker::Model;

/// The most bytes of an id that is looked for in the table.
const SHORT: usize = 3;

/// The ids of a text, each once. An id is found by its bytes.
///
/// An id of up to three printable bytes, as simulators write them, is a number in base 95, and at that place of a table stands
/// its own; any other is looked for in a map that is in the order of its keys. So there are no ids whose choice makes looking
/// slow, as there would be if they were hashed.
///
/// Clauses see the list of ids.
#[derive(Drop)]
pub(crate) struct IdTable<'a> {
    ids: Vec<Key<'a>>,
    /// For each place the number of its id and one more, or 0 where there is none.
    short: Vec<usize>,
    /// The numbers of the other ids.
    long: BTreeMap<Key<'a>, usize>,
}

impl<'a> Model for IdTable<'a> {
    ghost use Rattle.std.specs.Prelude.{List, ℕ};
    ghost use Rattle.cg_vcd.specs.inner.IdPlaces.{IsTable};

    ghost Value = { List (List ℕ) };

    ghost view = { λ t. t.ids.items };

    ghost invariant = { λ t. IsTable t.ids.items t.short.items t.long };
}

impl<'a> IdTable<'a> {
    /// No ids yet.
    pub(crate) fn new(alloc: Global) -> IdTable<'a>
        ensures { result ≡ [] }
    {
        IdTable {
            ids: Vec::new(alloc),
            short: Vec::new(alloc),
            long: BTreeMap::new(alloc),
        }
    }

    /// How many ids there are.
    pub(crate) fn len(&self) -> usize
        ensures count { result ≡ length self.now }
        ensures different { AllPairs (λ id other. id ≢ other) self.now }
    {
        self.ids.len()
    }

    /// The number of an id, or `None` where it is none of these.
    pub(crate) fn find(&self, id: &'a [u8]) -> Option<usize>
        ensures { MatchOption result (is_known self.now id.now ≡ false) (λ i. slice_get self.now i ≡ Some id.now) }
    {
        lookup(&self.short, &self.long, id)
    }

    /// The number of an id, which goes behind the others where it is none of them yet.
    pub(crate) fn intern(&mut self, id: &'a [u8]) -> Result<usize, AllocError>
        ensures names { OnOk result (self.new ≡ with_name self.old id.now) }
        ensures number { IfOk result (λ i. slice_get self.new i ≡ Some id.now) }
    {
        if let Some(number) = self.find(id) {
            return Ok(number);
        }
        let number = self.ids.len();
        self.ids.push(Key { bytes: id })?;
        match put(&mut self.short, &mut self.long, id, number) {
            Ok(()) => Ok(number),
            Err(fault) => {
                self.ids.truncate(number);
                Err(fault)
            },
        }
    }
}

/// The number of an id.
fn lookup<'a>(short: &[usize], long: &BTreeMap<Key<'a>, usize>, id: &'a [u8]) -> Option<usize>
    ensures { result ≡ lookup short.now long.now id.now }
{
    if is_short(id) {
        return number_at(short, place_of(id));
    }
    let key = Key { bytes: id };
    long.get(&key).copied()
}

/// Gives an id a number.
fn put<'a>(
    short: &mut Vec<usize>,
    long: &mut BTreeMap<Key<'a>, usize>,
    id: &'a [u8],
    number: usize,
) -> Result<(), AllocError>
    requires { number < 2 ^ 63 }
    ensures number { OnOk result (lookup short.new.items long.new id.now ≡ Some number) }
    ensures others { (other : List ℕ) → other ≢ id.now → lookup short.new.items long.new other ≡ lookup short.old.items long.old other }
    ensures refused { OnErr result ((other : List ℕ) → lookup short.new.items long.new other ≡ lookup short.old.items long.old other) }
{
    if is_short(id) {
        return put_short(short, place_of(id), number);
    }
    long.insert(Key { bytes: id }, number)?;
    Ok(())
}

/// Puts a number at a place.
fn put_short(short: &mut Vec<usize>, place: usize, number: usize) -> Result<(), AllocError>
    requires number { number < 2 ^ 63 }
    ensures number { OnOk result (slice_index_or short.new.items place 0 ≡ number + 1) }
    ensures others { (other : ℕ) → other ≢ place → slice_index_or short.new.items other 0 ≡ slice_index_or short.old.items other 0 }
    ensures refused { OnErr result ((other : ℕ) → slice_index_or short.new.items other 0 ≡ slice_index_or short.old.items other 0) }
{
    reach(short, place)?;
    short[place] = number + 1;
    Ok(())
}

/// Makes a table long enough for a place.
fn reach(short: &mut Vec<usize>, place: usize) -> Result<(), AllocError>
    ensures long { OnOk result (place < length short.new.items) }
    ensures same { (other : ℕ) → slice_index_or short.new.items other 0 ≡ slice_index_or short.old.items other 0 }
{
    'places: while short.len() <= place {
        short.push(0)?;
    }
    Ok(())
}

/// The number that stands at a place, if there is one.
fn number_at(short: &[usize], place: usize) -> Option<usize>
    ensures { result ≡ number_at short.now place }
{
    if short.len() <= place || short[place] == 0 {
        return None;
    }
    Some(short[place] - 1)
}

/// Whether an id has a place in the table: up to three printable bytes do.
fn is_short(id: &[u8]) -> bool
    ensures { result ≡ is_short id.now }
{
    id.len() <= SHORT && all_printable(id)
}

/// Whether each byte is printable, and no blank.
fn all_printable(id: &[u8]) -> bool
    ensures { result ≡ list_all is_printable id.now }
{
    for byte in id {
        if !is_printable(*byte) {
            return false;
        }
    }
    true
}

/// Whether a byte is printable, and no blank.
fn is_printable(byte: u8) -> bool
    ensures { result ≡ is_printable byte }
{
    32 < byte && byte < 127
}

/// The place of a short id: the number that its bytes are in base 95, the lowest first.
fn place_of(id: &[u8]) -> usize
    requires { is_short id.now ≡ true }
    ensures { result ≡ place_of id.now }
{
    digit_at(id, 0) + 95 * (digit_at(id, 1) + 95 * digit_at(id, 2))
}

/// The digit that a byte is, or 0 where there is none.
fn digit_at(id: &[u8], at: usize) -> usize
    ensures digit { result ≡ digit_at id.now at }
    ensures small { result < 256 }
{
    if id.len() <= at {
        return 0;
    }
    usize::from(id[at].saturating_sub(32))
}
