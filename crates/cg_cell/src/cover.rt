//! Covers: functions as rows of given bits, as `.names` lines of BLIF write them.

ghost use Rattle.std.specs.Prelude.{◌≡◌, [], true, length, IfOk};
ghost use Rattle.cg_cell.specs.Cover.{CoverData, CoverFits, IsCover, agrees, cover_value, row_matches};
ghost use Rattle.std.specs.List.{AllByRecursion, list_any};

use crate::rows::CoverRows;
use std::alloc::AllocError;
use std::marker::Model;
use std::rc::Rc;

/// A function as rows, and the value that it has where some row matches.
///
/// Clauses see a cover as its rows and that value. Clones of a cover share them.
#[derive(Drop)]
pub struct Cover {
    parts: Rc<Parts>,
}

impl Model for Cover {
    ghost use Rattle.cg_cell.specs.Cover.{CoverData, IsCover};
    ghost use Rattle.cg_cell.specs.inner.CoverParts.{seen};

    ghost Value = { CoverData };

    ghost view = { λ cover. seen cover.parts.value };

    ghost invariant = { λ cover. IsCover (seen cover.parts.value) };
}

/// What a cover is made of.
#[derive(Drop)]
struct Parts {
    rows: CoverRows,
    on: bool,
}

impl Clone for Cover {
    ghost is_clone = { λ x y. y ≡ x };

    fn clone(&self) -> Result<Cover, AllocError> {
        let parts = self.parts.clone()?;
        Ok(Cover { parts })
    }
}

impl Cover {
    /// A cover of the rows, with the value `on` where some row matches; an error where memory is wanting.
    /// Without rows the cover is 0, and `on` must be true.
    pub fn new(rows: CoverRows, on: bool) -> Result<Cover, AllocError>
        requires { rows ≡ [] → on ≡ true }
        ensures { IfOk result (λ cover. cover ≡ record { rows = rows; on = on }) }
    {
        let alloc = rows.allocator();
        let _ = rows.len();
        let parts = Parts { rows, on };
        Ok(Cover {
            parts: Rc::new(alloc, parts)?,
        })
    }

    /// Whether these are the rows of the cover, and this its value where some row matches.
    pub(crate) fn is_of(&self, rows: &CoverRows, on: bool) -> bool
        ensures { result ≡ true → self.now ≡ record { rows = rows.now; on = on } }
    {
        self.parts.on == on && self.parts.rows.are(rows)
    }

    /// The rows in their order.
    pub fn rows(&self) -> &CoverRows
        ensures rows { result.now ≡ self.now.rows }
        ensures cover { IsCover self.now }
    {
        &self.parts.rows
    }

    /// The value where some row matches.
    pub fn on(&self) -> bool
        ensures { result ≡ self.now.on }
    {
        self.parts.on
    }

    /// The bit of the function: `on` where some row matches, and else its inverse.
    /// `bits` has one bit per input, in the order of the places of a row.
    #[tactic(auto, using(crate::proofs::Covers::steps))]
    pub fn value(&self, bits: &[bool]) -> bool
        requires { CoverFits (length bits.now) self.now }
        ensures { result ≡ cover_value self.now bits.now }
    {
        if any_matches(&self.parts.rows, bits) {
            self.parts.on
        } else {
            !self.parts.on
        }
    }
}

/// Whether some row matches the bits.
#[tactic(auto, using(crate::proofs::Covers::steps))]
fn any_matches(rows: &CoverRows, bits: &[bool]) -> bool
    requires { AllByRecursion (λ row. length row ≡ length bits.now) rows.now }
    ensures { result ≡ list_any (λ row. row_matches row bits.now) rows.now }
{
    'rows: for k in 0..rows.len() {
        if matches_row(rows.row(k), bits) {
            return true;
        }
    }
    false
}

/// Whether each given bit of a row equals the input's bit. `bits` has one bit per place.
#[tactic(auto, using(crate::proofs::Covers::steps))]
fn matches_row(row: &[Option<bool>], bits: &[bool]) -> bool
    requires { length row.now ≡ length bits.now }
    ensures { result ≡ row_matches row.now bits.now }
{
    'places: for i in 0..bits.len() {
        if !is_met(row[i], bits[i]) {
            return false;
        }
    }
    true
}

/// Whether a place of a row agrees with the input's bit.
fn is_met(given: Option<bool>, bit: bool) -> bool
    ensures { result ≡ agrees given bit }
{
    match given {
        None => true,
        Some(true) => bit,
        Some(false) => !bit,
    }
}
