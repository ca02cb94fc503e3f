//! By what hints are judged.

use cg_cell::library::Library;
use cg_hint_laws::hint::Hint;

/// By what hints are judged.
#[derive(Clone, Copy)]
pub struct Rules<'a> {
    /// The cells that may be placed.
    pub library: &'a Library,

    /// How many leaves a claim may have.
    pub width: u32,

    /// Whether proofs are wanted of the claims of the hints that are inserted.
    pub proof: bool,
}

/// A hint with its number, counted from 1.
#[derive(Clone, Copy)]
pub(crate) struct Entry<'a> {
    pub number: u32,
    pub hint: &'a Hint,
}
