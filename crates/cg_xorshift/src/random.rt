//! Pseudo-random words.

ghost use Rattle.std.specs.Prelude.{◌≡◌, IfOk, length};

use std::alloc::{AllocError, Global};

// Where the words begin: any number but 0.
const SEED: u64 = 0x9e37_79b9_7f4a_7c15;

/// Words to come, the same each time.
#[derive(Drop)]
pub struct Random {
    state: u64,
}

impl Random {
    /// All words, from the first on.
    pub fn new() -> Random {
        Random { state: SEED }
    }

    /// The next word.
    pub fn next(&mut self) -> u64 {
        self.state ^= self.state << 13;
        self.state ^= self.state >> 7;
        self.state ^= self.state << 17;
        self.state
    }

    /// The next word in which 1 is as likely as 0, or more or less so.
    pub fn biased(&mut self) -> u64 {
        let word = self.next();
        match self.next() % 8 {
            0 => word & self.next(),
            1 => word | self.next(),
            2 => word & self.next() & self.next(),
            3 => word | self.next() | self.next(),
            _ => word,
        }
    }

    /// A word with a bit in the first lane, and with the other bit in a few of the others.
    pub fn near(&mut self, bit: bool) -> u64 {
        let others = self.next() & self.next() & self.next() & self.next() & (u64::MAX - 1);
        if bit { !others } else { others }
    }

    /// The next words.
    pub fn draw(&mut self, alloc: Global, count: usize) -> Result<Vec<u64>, AllocError>
        ensures { IfOk result (λ words. length words.items ≡ count) }
    {
        let mut words = Vec::new(alloc);
        for _ in 0..count {
            words.push(self.next())?;
        }
        Ok(words)
    }
}
