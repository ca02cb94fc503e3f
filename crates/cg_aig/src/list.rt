//! The list of nodes.

ghost use Rattle.std.specs.Prelude.{false, if◌then◌else◌, ◌≡◌, ◌≤◌, ◌<◌, ◌+◌, ◌*◌, ◌&&◌, ◌||◌, Bool, List, []};
ghost use Rattle.std.specs.Prelude.{length, slice_get, slice_index_or, Some, Err, IsTrue, IfOk, IfErr, OnOk, OnErr};
ghost use Rattle.cg_cell.specs.Build.{Evaluates, Stops, build_mux, build_or, build_xor};
ghost use Rattle.cg_cell.specs.Domain.{Keeps, Makes, Stands};
ghost use Rattle.cg_cell.specs.Gates.{exclusive_or};
ghost use Rattle.cg_aig.specs.Aig.{IsAig, aig_and, aig_ops, constant_lit, in_order, nodes, pair_node, simple};
ghost use Rattle.cg_aig.specs.Limits.{AndRefuses, IsPastLimit, PutRefuses};

use crate::fault::AigFault;
use crate::lit::AigLit;
use crate::values;
use cg_cell::build;
use cg_cell::domain::Domain;
use cg_limit::{Limit, MOST_CLAIM_NODES};
use indexmap::IndexSet;
use std::alloc::Global;
use std::marker::Model;

/// An and-inverter list.
///
/// Node 0 is the constant 0, the leaves are the nodes after it, and the and-nodes follow, each a pair of
/// literals of earlier nodes. No pair stands twice: the pairs are kept as a set in insertion order, whose
/// table of hashes finds the node of a pair again. The set is that table and the list at once, so the table
/// holds exactly the pairs of the and-nodes, each with its place.
///
/// Clauses see a list as the number of its leaves and its pairs.
#[derive(Drop)]
pub struct Aig {
    leaves: u32,
    pairs: IndexSet<(u32, u32)>,
}

impl Model for Aig {
    ghost use Rattle.cg_cell.specs.Domain.{Seen};
    ghost use Rattle.cg_aig.specs.Aig.{IsAig};

    ghost Value = { Seen };

    ghost view = { λ aig. record { number = aig.leaves; pairs = aig.pairs.keys } };

    ghost invariant = { λ aig. IsAig (record { number = aig.leaves; pairs = aig.pairs.keys }) };
}

impl Aig {
    /// A list of that many leaves and no and-nodes. It is refused exactly where these are too many.
    pub fn new(alloc: Global, leaves: u32) -> Result<Aig, AigFault>
        ensures made { IfOk result (λ aig. aig ≡ record { number = leaves; pairs = [] }) }
        ensures refused { IfErr result (λ fault. IsPastLimit leaves fault) }
    {
        if leaves > MOST_CLAIM_NODES {
            return Err(AigFault::Limit(Limit::ClaimNodes));
        }
        Ok(Aig {
            leaves,
            pairs: IndexSet::new(alloc),
        })
    }

    /// Begins again with that many leaves and no and-nodes, in the memory that is there, at the cost of the
    /// and-nodes that are there. It is refused exactly where these leaves are too many, and the list then
    /// stays as it is.
    pub fn clear(&mut self, leaves: u32) -> Result<(), AigFault>
        ensures cleared { OnOk result (self.new ≡ record { number = leaves; pairs = [] }) }
        ensures refused { IfErr result (λ fault. IsPastLimit leaves fault) }
        ensures unchanged { OnErr result (self.new ≡ self.old) }
    {
        if leaves > MOST_CLAIM_NODES {
            return Err(AigFault::Limit(Limit::ClaimNodes));
        }
        take_all(&mut self.pairs);
        self.leaves = leaves;
        Ok(())
    }

    /// How many leaves there are.
    pub fn leaves(&self) -> u32
        ensures leaves { result ≡ self.now.number }
        ensures well_formed { IsAig self.now }
    {
        self.leaves
    }

    /// How many and-nodes there are.
    pub fn ands(&self) -> u32
        ensures ands { result ≡ length self.now.pairs }
        ensures well_formed { IsAig self.now }
    {
        let _ = self.leaves();
        self.pairs.len() as u32
    }

    /// The operands of and-node `k`, counted from 0 in the order in which the nodes were made.
    pub fn pair(&self, k: u32) -> (AigLit, AigLit)
        requires { k < length self.now.pairs }
        ensures { slice_get self.now.pairs k ≡ Some (result.0, result.1) }
    {
        let (a, b) = self.pairs.as_slice()[k as usize];
        (AigLit::of(a), AigLit::of(b))
    }

    /// Whether the literal is one of a node of this list.
    pub fn contains(&self, lit: AigLit) -> bool
        ensures { result ≡ aig_ops.is_valid self.now lit }
    {
        lit.number() / 2 <= self.leaves() + self.ands()
    }

    /// The literal of leaf `k`, counted from 0. Its bit is the leaf's.
    pub fn leaf(&self, k: u32) -> AigLit
        requires { k < self.now.number }
        ensures number { result ≡ 2 * (k + 1) }
        ensures valid { IsTrue (aig_ops.is_valid self.now result) }
        ensures bit { (bits : List Bool) → aig_ops.bit self.now bits result ≡ slice_index_or bits k false }
    {
        let _ = self.leaves();
        AigLit::of(2 * (k + 1))
    }

    /// The bit of a literal where the leaves have these bits. The buffer has a place for each node; what it
    /// held is written over.
    pub fn value(&self, lit: AigLit, bits: &[bool], buffer: &mut [bool]) -> bool
        requires lit { IsTrue (aig_ops.is_valid self.now lit) }
        requires bits { length bits.now ≡ self.now.number }
        requires buffer { nodes self.now ≤ length buffer.old }
        ensures { result ≡ aig_ops.bit self.now bits.now lit }
    {
        let _ = self.leaves();
        values::fill(bits, self.pairs.as_slice(), buffer);
        values::bit(buffer, lit.number())
    }

    /// The literal of a constant bit.
    pub fn constant(&mut self, bit: bool) -> AigLit
        ensures number { result ≡ constant_lit bit }
        ensures unchanged { self.new ≡ self.old }
        ensures stands { Stands aig_ops self.old self.new result (λ _. bit) }
    {
        let _ = self.leaves();
        AigLit::of(if bit { 1 } else { 0 })
    }

    /// The literal that is 1 where both are: the constant 0 where an operand is that or both are inverse, an
    /// operand where the other is the constant 1 or is the same, the node that has this pair of operands, or
    /// a new node.
    ///
    /// It is refused only where a node must be added: beyond the limit, or for want of memory.
    pub fn and(&mut self, a: AigLit, b: AigLit) -> Result<AigLit, AigFault>
        requires left { IsTrue (aig_ops.is_valid self.old a) }
        requires right { IsTrue (aig_ops.is_valid self.old b) }
        ensures made { IfOk result (λ v. Makes self.old (aig_and self.old a b) self.new v) }
        ensures stands { IfOk result (λ v. Stands aig_ops self.old self.new v
            (λ bits. aig_ops.bit self.old bits a && aig_ops.bit self.old bits b)) }
        ensures refused { IfErr result (λ fault. AndRefuses self.old a b fault) }
        ensures unchanged { OnErr result (self.new ≡ self.old) }
    {
        let leaves = self.leaves;
        let left = a.number();
        let right = b.number();
        match simple_and(left, right) {
            Some(number) => Ok(AigLit::of(number)),
            None => {
                let pair = ordered(left, right);
                put_pair(leaves, &mut self.pairs, pair)
            }
        }
    }

    /// The literal that is 1 where `a` or `b` is: `not and(not a, not b)`.
    ///
    /// It is refused where the inner `and` is.
    pub fn or(&mut self, a: AigLit, b: AigLit) -> Result<AigLit, AigFault>
        requires left { IsTrue (aig_ops.is_valid self.old a) }
        requires right { IsTrue (aig_ops.is_valid self.old b) }
        ensures built { IfOk result (λ v. Evaluates aig_ops self.old self.new v (build_or aig_ops a b self.old)
            (λ bits. aig_ops.bit self.old bits a || aig_ops.bit self.old bits b)) }
        ensures stopped { IfErr result (λ fault. Stops AndRefuses (build_or aig_ops a b self.old) fault self.new) }
        ensures kept { OnErr result (Keeps aig_ops self.old self.new) }
    {
        build::or(self, a, b)
    }

    /// The literal that is 1 where exactly one of `a` and `b` is: `or(and(a, not b), and(not a, b))`, the
    /// left side made first.
    ///
    /// It is refused where an `and` of these is. The nodes that were made before stay: the list has grown at
    /// its end alone, and each literal keeps its bits.
    pub fn xor(&mut self, a: AigLit, b: AigLit) -> Result<AigLit, AigFault>
        requires left { IsTrue (aig_ops.is_valid self.old a) }
        requires right { IsTrue (aig_ops.is_valid self.old b) }
        ensures built { IfOk result (λ v. Evaluates aig_ops self.old self.new v (build_xor aig_ops a b self.old)
            (λ bits. exclusive_or (aig_ops.bit self.old bits a) (aig_ops.bit self.old bits b))) }
        ensures stopped { IfErr result (λ fault. Stops AndRefuses (build_xor aig_ops a b self.old) fault self.new) }
        ensures kept { OnErr result (Keeps aig_ops self.old self.new) }
    {
        build::xor(self, a, b)
    }

    /// The literal that is `a` where `c` is 1 and `b` where it is 0: `or(and(c, a), and(not c, b))`, the left
    /// side made first.
    ///
    /// It is refused where an `and` of these is. The nodes that were made before stay, as with [`Aig::xor`].
    pub fn mux(&mut self, c: AigLit, a: AigLit, b: AigLit) -> Result<AigLit, AigFault>
        requires choice { IsTrue (aig_ops.is_valid self.old c) }
        requires left { IsTrue (aig_ops.is_valid self.old a) }
        requires right { IsTrue (aig_ops.is_valid self.old b) }
        ensures built { IfOk result (λ v. Evaluates aig_ops self.old self.new v (build_mux aig_ops c a b self.old)
            (λ bits. if aig_ops.bit self.old bits c then aig_ops.bit self.old bits a else aig_ops.bit self.old bits b)) }
        ensures stopped { IfErr result (λ fault. Stops AndRefuses (build_mux aig_ops c a b self.old) fault self.new) }
        ensures kept { OnErr result (Keeps aig_ops self.old self.new) }
    {
        build::mux(self, c, a, b)
    }
}

/// A list is a domain, whose values are its literals.
impl Domain for Aig {
    ghost use Rattle.cg_aig.specs.Aig.{aig_ops};
    ghost use Rattle.cg_aig.specs.AigLaws.{aig_lawful};
    ghost use Rattle.cg_aig.specs.Limits.{AndRefuses};

    type Value = AigLit;

    type Fault = AigFault;

    ghost ops = { aig_ops };

    ghost seen = { λ list. list };

    ghost number = { λ lit. lit };

    ghost refuses = { AndRefuses };

    fn constant(&mut self, bit: bool) -> AigLit {
        let _ = self.leaves();
        self.constant(bit)
    }

    fn not(&mut self, a: AigLit) -> AigLit {
        a.not()
    }

    fn and(&mut self, a: AigLit, b: AigLit) -> Result<AigLit, AigFault> {
        self.and(a, b)
    }

    ghost lawful = { aig_lawful };
}

/// What the `and` of two literals is that needs no node.
fn simple_and(a: u32, b: u32) -> Option<u32>
    ensures { result ≡ simple a b }
{
    let inverse = AigLit::of(b).not().number();
    if a == 0 || b == 0 || a == inverse {
        Some(0)
    } else if a == 1 {
        Some(b)
    } else if b == 1 || a == b {
        Some(a)
    } else {
        None
    }
}

/// Two literals in the order of their numbers.
fn ordered(a: u32, b: u32) -> (u32, u32)
    ensures { result ≡ in_order a b }
{
    if a < b { (a, b) } else { (b, a) }
}

/// Takes all pairs away, one by one: to clear the table of hashes would cost as much as the largest list
/// that it ever held.
fn take_all(pairs: &mut IndexSet<(u32, u32)>)
    ensures { pairs.new.keys ≡ [] }
{
    'pairs: while let Some(_) = pairs.pop() {}
}

/// The literal of the node that has this pair of operands, found or added.
fn put_pair(
    leaves: u32,
    pairs: &mut IndexSet<(u32, u32)>,
    pair: (u32, u32),
) -> Result<AigLit, AigFault>
    requires { leaves + length pairs.old.keys ≤ MOST_CLAIM_NODES }
    ensures made { IfOk result (λ v. Makes (record { number = leaves; pairs = pairs.old.keys })
        (pair_node (record { number = leaves; pairs = pairs.old.keys }) pair)
        (record { number = leaves; pairs = pairs.new.keys }) v) }
    ensures refused { IfErr result (λ fault. PutRefuses (record { number = leaves; pairs = pairs.old.keys }) pair fault) }
    ensures unchanged { OnErr result (pairs.new.keys ≡ pairs.old.keys) }
    ensures small { leaves + length pairs.new.keys ≤ MOST_CLAIM_NODES }
{
    if leaves as usize + pairs.len() < MOST_CLAIM_NODES as usize {
        let (k, _) = pairs.insert_full(pair)?;
        return Ok(AigLit::of(2 * (1 + leaves + k as u32)));
    }
    match pairs.get_index_of(&pair) {
        Some(k) => Ok(AigLit::of(2 * (1 + leaves + k as u32))),
        None => Err(AigFault::Limit(Limit::ClaimNodes)),
    }
}
