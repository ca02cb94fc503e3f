//! Who is told how far long work is.

/// Who is told how far long work is, for example to show it.
///
/// It is told and no more: the work goes on as it would without, and no contract speaks of what is done with it.
pub trait Progress {
    /// A register is about to be looked at in the search for hold stages, the one with this number, counted from 1, of so many.
    fn looking(&mut self, register: usize, registers: usize);

    /// A stage is about to be tried, the one with this number, counted from 1, of those that are listed so far.
    fn trying(&mut self, stage: usize, listed: usize);

    /// The work has ended.
    fn done(&mut self);
}

/// Nobody is told.
#[derive(Clone, Copy, Debug)]
pub struct Silent;

impl Progress for Silent {
    fn looking(&mut self, _register: usize, _registers: usize) {}

    fn trying(&mut self, _stage: usize, _listed: usize) {}

    fn done(&mut self) {}
}
