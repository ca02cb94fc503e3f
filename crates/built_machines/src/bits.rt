//! Bits, as words spell them.

use std::alloc::Global;

/// The bits that a word spells.
pub fn bits_in(alloc: Global, word: &str) -> Result<Vec<bool>, ()> {
    let mut bits = Vec::new(alloc);
    for byte in word.as_bytes() {
        match *byte {
            b'0' => bits.push(false).map_err(|_| ())?,
            b'1' => bits.push(true).map_err(|_| ())?,
            _ => return Err(()),
        }
    }
    Ok(bits)
}
