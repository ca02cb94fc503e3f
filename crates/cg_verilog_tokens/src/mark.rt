//! A mark.

/// A token that is a mark: what a text has most of, so that it is held by its byte alone.
#[derive(Clone, Copy)]
pub struct Mark {
    /// The number of its line, counted from 1.
    pub line: u64,

    /// Its byte.
    pub byte: u8,
}
