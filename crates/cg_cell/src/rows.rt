//! The rows of a cover, in one list.

ghost use Rattle.std.specs.Prelude.{◌≡◌, ◌<◌, ◌++◌, ◌∷◌, [], length, get_or, IfOk, ◌+◌, if◌then◌else◌, is_ok, true};
ghost use Rattle.cg_cell.specs.Cover.{HaveOneLength};

use smallvec::SmallVec;
use std::alloc::{AllocError, Global};
use std::marker::Model;

/// So many places lie in the value itself.
const INLINE: usize = 16;

/// Rows that have a place for each of the same inputs: a given bit, or `None` where the row leaves the input open.
///
/// Clauses see the list of the rows. In memory their places stand in one list, those of a row behind those of the row before.
#[derive(Drop)]
pub struct CoverRows {
    places: SmallVec<Option<bool>, INLINE>,
    /// How many places a row has.
    width: usize,
    /// How many rows there are: places don't tell where there are no inputs.
    count: usize,
}

impl Model for CoverRows {
    ghost use Rattle.std.specs.Prelude.{◌≡◌, List, Option, Bool, length, ◌*◌};
    ghost use Rattle.cg_cell.specs.inner.CutRows.{cut_rows};

    ghost Value = { List (List (Option Bool)) };

    ghost view = { λ r. cut_rows r.width r.count r.places.items };

    ghost invariant = { λ r. length r.places.items ≡ r.count * r.width };
}

impl Clone for CoverRows {
    ghost is_clone = { λ x y. y ≡ x };

    fn clone(&self) -> Result<CoverRows, AllocError> {
        let places = SmallVec::from_slice(*self.places.allocator(), self.places.as_slice())?;
        Ok(CoverRows {
            places,
            width: self.width,
            count: self.count,
        })
    }
}

impl CoverRows {
    /// No rows yet; takes no memory.
    pub fn new(alloc: Global) -> CoverRows
        ensures { result ≡ [] }
    {
        CoverRows {
            places: SmallVec::new(alloc),
            width: 0,
            count: 0,
        }
    }

    /// Where the rows take memory from.
    pub(crate) fn allocator(&self) -> Global {
        *self.places.allocator()
    }

    /// Whether others are the same rows.
    pub(crate) fn are(&self, others: &CoverRows) -> bool
        ensures { result ≡ true → self.now ≡ others.now }
    {
        let places = self.places.as_slice();
        self.width == others.width
            && self.count == others.count
            && are_same(places, others.places.as_slice())
    }

    /// How many rows there are.
    pub fn len(&self) -> usize
        ensures count { result ≡ length self.now }
        ensures even { HaveOneLength self.now }
    {
        self.count
    }

    /// The places of a row.
    pub fn row(&self, number: usize) -> &[Option<bool>]
        requires { number < length self.now }
        ensures { result.now ≡ get_or self.now number [] }
    {
        let places = self.places.as_slice();
        // The length of a slice fits, and so do the products below.
        let _ = places.len();
        let start = number * self.width;
        &places[start..start + self.width]
    }

    /// Puts a row behind the others, or leaves them as they are where memory is wanting.
    pub fn push(&mut self, row: &[Option<bool>]) -> Result<(), AllocError>
        requires { HaveOneLength (self.old ++ row.now ∷ []) }
        ensures { self.new ≡ (if is_ok result then self.old ++ row.now ∷ [] else self.old) }
    {
        let count = one_more(self.count)?;
        self.places.extend_from_slice(row)?;
        self.width = row.len();
        self.count = count;
        Ok(())
    }
}

/// The next number; where there is none, as after 2^64 - 1 rows without places, memory counts as wanting.
fn one_more(count: usize) -> Result<usize, AllocError>
    ensures { IfOk result (λ more. more ≡ count + 1) }
{
    match count.checked_add(1) {
        None => Err(AllocError),
        Some(more) => Ok(more),
    }
}

/// Whether two lists have the same places.
fn are_same(some: &[Option<bool>], others: &[Option<bool>]) -> bool
    ensures { result ≡ true → some.now ≡ others.now }
{
    if some.len() != others.len() {
        return false;
    }
    'places: for k in 0..some.len() {
        if !is_same(some[k], others[k]) {
            return false;
        }
    }
    true
}

/// Whether two places are the same.
fn is_same(place: Option<bool>, other: Option<bool>) -> bool
    ensures { result ≡ true → place ≡ other }
{
    match (place, other) {
        (None, None) => true,
        (Some(bit), Some(own)) => bit == own,
        _ => false,
    }
}
