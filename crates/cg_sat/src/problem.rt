//! What a search is about.

use cg_formula::Formula;
use std::alloc::Global;

/// What a search is about, and where its memory comes from.
#[derive(Clone, Copy)]
pub struct Problem<'a> {
    /// The allocator.
    pub alloc: Global,
    /// The formula whose satisfiability is asked.
    pub formula: &'a Formula,
    /// One more than its variables, which are counted from one.
    pub count: usize,
}
