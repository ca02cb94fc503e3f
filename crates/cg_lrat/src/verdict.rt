//! What the check of a log answers.

/// What the check of a log answers.
#[derive(Clone, Copy, Debug, PartialEq, Eq)]
pub enum Verdict {
    /// The log proves that the formula is unsatisfiable.
    Accepted,
    /// The line of the first refused step, or 0 where no step is refused and none adds the empty clause; and why.
    Rejected(u64, Why),
}

/// Why a log is rejected.
#[derive(Clone, Copy, Debug, PartialEq, Eq)]
pub enum Why {
    /// An added clause has an id that is not above those of all clauses before.
    UsedId(u64),
    /// A hint or a deletion names an id that no live clause has.
    UnknownId(u64),
    /// An added clause has a literal and its inverse.
    Tautology,
    /// A hint before the last is not unit: not all its literals but one are false, or that one is true.
    NotUnit(u64),
    /// The last hint has a literal that is not false.
    NotFalse(u64),
    /// An added clause has no hint.
    NoHint,
    /// No step adds the empty clause.
    NoEmpty,
}
