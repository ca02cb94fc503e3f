//! What a text may be refused for.

/// The first fault of a text that is no group `library`.
#[derive(Clone, Copy, Debug)]
pub enum TextFault {
    /// At this place no token begins, or a string or comment begins that is not closed.
    BadToken(usize),

    /// At this place stands a token that may not stand there, or the text ends too early.
    BadGroup(usize),

    /// Groups nest deeper than 64.
    Nesting,
}
