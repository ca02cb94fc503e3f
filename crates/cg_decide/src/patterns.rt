//! Random leaf bits.
//!
//! No answer rests on them: bits that are found are tried before they are answered.

use cg_aig::{Aig, AigLit};
use cg_xorshift::Random;
use std::alloc::{AllocError, Global};

/// The values of the nodes of a list under 64 choices of leaf bits at a time: bit k of a word is the value under
/// choice k.
#[derive(Drop)]
pub struct Patterns {
    alloc: Global,
    words: Vec<u64>,
    random: Random,
}

impl Patterns {
    /// With an empty buffer.
    pub fn new(alloc: Global) -> Self {
        Patterns {
            alloc,
            words: Vec::new(alloc),
            random: Random::new(),
        }
    }

    /// Begins with the same numbers again, so that an answer depends on the list and the goal alone.
    pub fn restart(&mut self) {
        self.random = Random::new();
    }

    fn word(&self, lit: AigLit) -> u64 {
        let number = lit.number();
        let word = match self.words.get(number as usize / 2) {
            Some(word) => *word,
            None => 0,
        };
        if number % 2 == 0 { word } else { !word }
    }

    // The values of all nodes, each leaf having random bits.
    fn fill(&mut self, aig: &Aig) -> Result<(), AllocError> {
        self.words.clear();
        self.words.push(0)?;
        for _ in 0..aig.leaves() {
            let word = self.random.next();
            self.words.push(word)?;
        }
        for k in 0..aig.ands() {
            let (a, b) = aig.pair(k);
            let word = self.word(a) & self.word(b);
            self.words.push(word)?;
        }
        Ok(())
    }

    /// Leaf bits under which the goal is 1, if 64 random choices have such.
    pub fn draw(&mut self, aig: &Aig, goal: AigLit) -> Result<Option<Vec<bool>>, AllocError> {
        self.fill(aig)?;
        let found = self.word(goal);
        if found == 0 {
            return Ok(None);
        }
        let chosen = found & found.wrapping_neg();
        let mut bits = Vec::new(self.alloc);
        for word in self.words.iter().skip(1).take(aig.leaves() as usize) {
            bits.push(*word & chosen != 0)?;
        }
        Ok(Some(bits))
    }
}
