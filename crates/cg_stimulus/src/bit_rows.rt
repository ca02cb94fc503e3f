//! The rows of a stimulus, in one list.

ghost use Rattle.std.specs.Prelude.{◌≡◌, ◌<◌, ◌+◌, ◌^◌, ◌++◌, ◌∷◌, [], Some, length, slice_get, OnErr, OnOk};
ghost use Rattle.std.specs.List.{AllByRecursion};

use std::alloc::{AllocError, Global};
use std::marker::Model;

/// Rows of as many bits each.
///
/// Clauses see the list of the rows. In memory their bits stand in one list, those of a row behind those of the row before.
#[derive(Drop)]
pub(crate) struct BitRows {
    bits: Vec<bool>,
    /// How many bits a row has.
    width: usize,
    /// How many rows there are: bits don't tell where a row has none.
    count: u32,
}

impl Model for BitRows {
    ghost use Rattle.std.specs.Prelude.{◌≡◌, List, Bool, length, ◌*◌};
    ghost use Rattle.cg_stimulus.specs.inner.CutRows.{cut_rows};

    ghost Value = { List (List Bool) };

    ghost view = { λ r. cut_rows r.width r.count r.bits.items };

    ghost invariant = { λ r. length r.bits.items ≡ r.count * r.width };
}

impl BitRows {
    /// No rows yet.
    pub(crate) fn new(alloc: Global) -> BitRows
        ensures { result ≡ [] }
    {
        BitRows {
            bits: Vec::new(alloc),
            width: 0,
            count: 0,
        }
    }

    /// How many rows there are.
    pub(crate) fn len(&self) -> u32
        ensures { result ≡ length self.now }
    {
        self.count
    }

    /// The bits of a row.
    pub(crate) fn row(&self, number: u32) -> &[bool]
        requires { number < length self.now }
        ensures { slice_get self.now number ≡ Some result.now }
    {
        let start = number as usize * self.width;
        &self.bits[start..start + self.width]
    }

    /// Puts a row behind the others, which must be as long as it, or leaves them as they are where memory is wanting.
    pub(crate) fn push(&mut self, row: &[bool]) -> Result<(), AllocError>
        requires wide { AllByRecursion (λ other. length other ≡ length row.now) self.old }
        requires few { length self.old + 1 < 2 ^ 32 }
        ensures added { OnOk result (self.new ≡ self.old ++ row.now ∷ []) }
        ensures same { OnErr result (self.new ≡ self.old) }
    {
        self.bits.extend_from_slice(row)?;
        self.width = row.len();
        self.count += 1;
        Ok(())
    }
}
