//! Covers that cells share.

ghost use Rattle.std.specs.Prelude.{◌≡◌, [], true, IfOk, IfSome};

use crate::cover::Cover;
use crate::rows::CoverRows;
use std::alloc::{AllocError, Global};

/// So many covers are kept.
const MOST: usize = 16;

/// The first different covers of a text, so that a cell shares its cover with those that have an equal one. Most texts have few.
#[derive(Drop)]
pub struct SharedCovers {
    covers: Vec<Cover>,
}

impl SharedCovers {
    /// None yet; takes no memory.
    pub fn new(alloc: Global) -> SharedCovers {
        SharedCovers {
            covers: Vec::new(alloc),
        }
    }

    /// The cover of the rows, with the value `on` where some row matches; an error where memory is wanting.
    /// Without rows the cover is 0, and `on` must be true.
    pub fn cover(&mut self, rows: CoverRows, on: bool) -> Result<Cover, AllocError>
        requires { rows ≡ [] → on ≡ true }
        ensures { IfOk result (λ cover. cover ≡ record { rows = rows; on = on }) }
    {
        if let Some(cover) = find(&self.covers, &rows, on) {
            return cover.clone();
        }
        let cover = Cover::new(rows, on)?;
        if self.covers.len() < MOST {
            self.covers.push(cover.clone()?)?;
        }
        Ok(cover)
    }
}

/// One of these covers that has the rows, and the value where some row matches.
fn find<'a>(covers: &'a [Cover], rows: &CoverRows, on: bool) -> Option<&'a Cover>
    ensures { IfSome result (λ cover. cover.now ≡ record { rows = rows.now; on = on }) }
{
    covers.iter().find(|cover| cover.is_of(rows, on))
}
