//! One token of a Liberty text.

use crate::lexeme::Kind;
use crate::text::Text;

/// A token, of which only the range of its bytes is kept.
#[derive(Drop)]
pub struct Token<'a> {
    /// What it is.
    pub kind: Kind,

    /// The place of its first byte, counted from 0.
    pub at: usize,

    /// A word's bytes, or what a string stands for.
    pub text: Text<'a>,

    /// Whether a line end stands between it and the token before it.
    pub fresh: bool,
}
