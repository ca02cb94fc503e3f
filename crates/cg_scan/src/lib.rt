//! Where a byte of some kind stands first in a text, looked for sixteen bytes at a time.
//!
//! In go the bytes of a text. Out comes how many of them stand before the first one of a kind. A crate of its own, since the readers of
//! several formats cut their texts there.
//!
//! The modules:
//!
//! - [`first`]: the first byte of a value, and the first that is a blank or of a value.
#![tactic(auto)]

pub mod first;
