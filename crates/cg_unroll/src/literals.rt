//! A literal for each net or each register, where most have none.

ghost use Rattle.std.specs.Prelude.{◌≡◌, ◌<◌, ◌≤◌, [], length, slice_index_or, slice_set, IfErr, OnOk};
ghost use Rattle.cg_aig.specs.declared.fault.AigFault.TheVariants.{NoMemory};
ghost use Rattle.cg_unroll.specs.Sparse.{AreZero};

use cg_aig::{AigFault, AigLit};
use std::alloc::Global;
use std::marker::Model;

/// A literal at each of many places: the constant 0, except where one was put.
///
/// There are as many places as a machine has nets or registers, and a claim puts literals at few of them. So the places
/// that have one are kept beside the literals, and to begin again costs what was put and not how many places there are.
///
/// Clauses see the list of the literals.
#[derive(Drop)]
pub struct Literals {
    literals: Vec<AigLit>,
    written: Vec<usize>,
}

impl Model for Literals {
    ghost use Rattle.std.specs.Prelude.{ℕ, List};
    ghost use Rattle.cg_unroll.specs.Sparse.{IsSparse};

    ghost Value = { List ℕ };

    ghost view = { λ l. l.literals.items };

    ghost invariant = { λ l. IsSparse l.literals.items l.written.items };
}

impl Literals {
    /// No places.
    pub fn new(alloc: Global) -> Literals
        ensures { result ≡ [] }
    {
        Literals {
            literals: Vec::new(alloc),
            written: Vec::new(alloc),
        }
    }

    /// The literal at a place.
    pub fn get(&self, place: usize) -> AigLit
        requires { place < length self.now }
        ensures { result ≡ slice_index_or self.now place 0 }
    {
        self.literals[place]
    }

    /// Puts a literal at a place.
    pub fn put(&mut self, place: usize, literal: AigLit) -> Result<(), AigFault>
        requires { place < length self.old }
        ensures put { OnOk result (self.new ≡ slice_set self.old place literal) }
        ensures failed { IfErr result (λ fault. fault ≡ NoMemory) }
    {
        self.written.push(place)?;
        self.literals[place] = literal;
        Ok(())
    }

    /// Puts the constant 0, which is `zero`, at all places, of which there are then at least so many.
    pub fn reset(&mut self, places: usize, zero: AigLit) -> Result<(), AigFault>
        requires { zero ≡ 0 }
        ensures zeros { OnOk result (AreZero self.new) }
        ensures places { OnOk result (places ≤ length self.new) }
        ensures failed { IfErr result (λ fault. fault ≡ NoMemory) }
    {
        self.clear(zero);
        self.grow(places, zero)
    }

    /// Puts the constant 0 where a literal was put.
    fn clear(&mut self, zero: AigLit)
        requires { zero ≡ 0 }
        ensures { AreZero self.new }
    {
        'written: while let Some(place) = self.written.pop() {
            self.literals[place] = zero;
        }
    }

    /// Adds places until there are so many.
    fn grow(&mut self, places: usize, zero: AigLit) -> Result<(), AigFault>
        requires zero { zero ≡ 0 }
        requires zeros { AreZero self.old }
        ensures zeros { OnOk result (AreZero self.new) }
        ensures places { OnOk result (places ≤ length self.new) }
        ensures failed { IfErr result (λ fault. fault ≡ NoMemory) }
    {
        'places: while self.literals.len() < places {
            self.literals.push(zero)?;
        }
        Ok(())
    }
}
