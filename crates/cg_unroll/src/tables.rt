//! The literals of the nets and of the states of the copies.

ghost use Rattle.std.specs.Prelude.{◌≡◌, ◌<◌, length, IfErr, OnOk};
ghost use Rattle.cg_aig.specs.declared.fault.AigFault.TheVariants.{NoMemory};
ghost use Rattle.cg_unroll.specs.inner.Copying.{AreLeavesPlaced, Starts, copy_tables};
ghost use Rattle.cg_unroll.specs.Placing.{ArePlaced, HoldsLeaves, place_in, source_place};

use crate::literals::Literals;
use cg_aig::{Aig, AigFault, AigLit};
use cg_claim::leaf::{Leaf, LeafSource};
use cg_claim_reach::asked::Frame;
use cg_machine::machine::Machine;
use std::alloc::Global;

/// The literals of a copy of the machine: of its nets, and of the states of its registers.
#[derive(Drop)]
pub struct CopyTables {
    /// Those of the nets.
    pub nets: Literals,

    /// Those of the registers' bits.
    pub states: Literals,
}

/// The literals of the three copies, and those of the registers that nothing is said of after the first cycle.
#[derive(Drop)]
pub(crate) struct Tables {
    pub(crate) before: CopyTables,
    pub(crate) after: CopyTables,
    pub(crate) changed: CopyTables,
    pub(crate) free: Literals,
}

impl Tables {
    /// Tables without places; takes no memory.
    pub(crate) fn new(alloc: Global) -> Tables {
        Tables {
            before: CopyTables::new(alloc),
            after: CopyTables::new(alloc),
            changed: CopyTables::new(alloc),
            free: Literals::new(alloc),
        }
    }

    /// The literals of a copy.
    pub(crate) fn copy(&self, frame: Frame) -> &CopyTables
        ensures { result.now ≡ copy_tables self.now frame }
    {
        match frame {
            Frame::Before => &self.before,
            Frame::After => &self.after,
            Frame::Changed => &self.changed,
        }
    }

    /// Puts the literals of these leaves at their places, in place of all that was there. The data inputs of the second
    /// cycle are those of both its copies.
    pub(crate) fn start(
        &mut self,
        machine: &Machine,
        leaves: &[Leaf],
        aig: &mut Aig,
    ) -> Result<(), AigFault>
        requires count { length leaves.now ≡ aig.old.number }
        requires placed { AreLeavesPlaced machine.now leaves.now }
        ensures started { OnOk result (Starts machine.now leaves.now aig.new self.new) }
        ensures unchanged { aig.new ≡ aig.old }
        ensures failed { IfErr result (λ fault. fault ≡ NoMemory) }
    {
        let zero = aig.constant(false);
        let nets = machine.nets() as usize;
        let registers = machine.registers() as usize;
        put_leaves(
            leaves,
            CopyLeaves {
                copy: 0,
                sources: Sources::Inputs,
            },
            nets,
            zero,
            aig,
            &mut self.before.nets,
        )?;
        put_leaves(
            leaves,
            CopyLeaves {
                copy: 0,
                sources: Sources::Registers,
            },
            registers,
            zero,
            aig,
            &mut self.before.states,
        )?;
        put_leaves(
            leaves,
            CopyLeaves {
                copy: 1,
                sources: Sources::Inputs,
            },
            nets,
            zero,
            aig,
            &mut self.after.nets,
        )?;
        put_leaves(
            leaves,
            CopyLeaves {
                copy: 1,
                sources: Sources::Registers,
            },
            registers,
            zero,
            aig,
            &mut self.free,
        )?;
        self.after.states.reset(registers, zero)?;
        put_leaves(
            leaves,
            CopyLeaves {
                copy: 1,
                sources: Sources::Inputs,
            },
            nets,
            zero,
            aig,
            &mut self.changed.nets,
        )?;
        put_leaves(
            leaves,
            CopyLeaves {
                copy: 2,
                sources: Sources::Registers,
            },
            registers,
            zero,
            aig,
            &mut self.changed.states,
        )
    }
}

impl CopyTables {
    /// Tables without places; takes no memory.
    pub fn new(alloc: Global) -> CopyTables {
        CopyTables {
            nets: Literals::new(alloc),
            states: Literals::new(alloc),
        }
    }
}

/// What leaves stand for.
#[derive(Clone, Copy)]
pub enum Sources {
    /// Data inputs.
    Inputs,

    /// Registers.
    Registers,
}

/// The leaves of a copy that stand for its data inputs, or for its registers.
#[derive(Clone, Copy)]
pub struct CopyLeaves {
    pub copy: u8,
    pub sources: Sources,
}

/// Puts at its place the literal of each leaf that is one of these. All other places, of which there are then at least so many,
/// get the constant 0, which is `zero`.
pub fn put_leaves(
    leaves: &[Leaf],
    these: CopyLeaves,
    places: usize,
    zero: AigLit,
    aig: &Aig,
    literals: &mut Literals,
) -> Result<(), AigFault>
    requires count { length leaves.now ≡ aig.now.number }
    requires zero { zero ≡ 0 }
    requires placed { ArePlaced (place_in these.copy these.sources) leaves.now places }
    ensures held { OnOk result (HoldsLeaves (place_in these.copy these.sources) leaves.now places aig.now literals.new) }
    ensures failed { IfErr result (λ fault. fault ≡ NoMemory) }
{
    let _leaves = aig.leaves();
    literals.reset(places, zero)?;
    for k in 0..leaves.len() {
        match place_of(leaves[k], these.copy, these.sources) {
            Some(place) => literals.put(place, aig.leaf(k as u32))?,
            None => {}
        }
    }
    Ok(())
}

/// The place of a leaf, where it is one of this copy and stands for what is asked.
fn place_of(leaf: Leaf, copy: u8, sources: Sources) -> Option<usize>
    ensures { result ≡ place_in copy sources leaf }
{
    if leaf.copy == copy {
        source_place(leaf.source, sources)
    } else {
        None
    }
}

/// The place of a data input or a register, where it is what is asked.
fn source_place(source: LeafSource, sources: Sources) -> Option<usize>
    ensures { result ≡ source_place sources source }
{
    match source {
        LeafSource::Input(net) => match sources {
            Sources::Inputs => Some(net.number() as usize),
            Sources::Registers => None,
        },
        LeafSource::Register(reg) => match sources {
            Sources::Inputs => None,
            Sources::Registers => Some(reg.number() as usize),
        },
    }
}
