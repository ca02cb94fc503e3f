//! The gates that were added to a machine, found by what they compute.

ghost use Rattle.std.specs.Prelude.{◌≡◌, ◌<◌, ◌&&◌, ◌||◌, ◌++◌, ◌∷◌, [], ℕ, None, OnErr, OnOk, Some, length, map, slice_get};
ghost use Rattle.std.specs.List.{All, find};
ghost use Rattle.std.specs.Option.{option_map};
ghost use Rattle.cg_machine.specs.Added.{is_gate};
ghost use Rattle.cg_cell.specs.Cover.{cover_value};
ghost use Rattle.cg_netlist.specs.Moment.{values_at};
ghost use Rattle.cg_netlist.specs.Netlist.{widest_of};
ghost use Rattle.cg_netlist.specs.Nets.{put_cells};
ghost use Rattle.cg_machine.specs.Gates.{HasInputs, gate_cell, gate_cover};
ghost use Rattle.cg_machine.specs.inner.Kept.{key_of};
ghost use Rattle.cg_machine.specs.View.{gate_seen};

use crate::view::GateView;
use cg_cell::fit::FitKind;
use cg_net::id::NetId;
use indexmap::IndexMap;
use std::alloc::{AllocError, Global};
use std::marker::Model;

/// An added gate: what it computes, its input nets in the order of its pins, and its output net.
#[derive(Drop)]
pub(crate) struct Gate {
    pub(crate) kind: FitKind,
    pub(crate) inputs: Vec<NetId>,
    pub(crate) output: NetId,
}

impl Model for Gate {
    ghost use Rattle.cg_machine.specs.Gates.{AddedGate};

    ghost Value = { AddedGate };

    ghost view = { λ g. record { kind = g.kind; inputs = g.inputs.items; output = g.output } };
}

impl Gate {
    /// The gate, to be read.
    pub(crate) fn view(&self) -> GateView<'_>
        ensures { gate_seen result ≡ self.now }
    {
        GateView {
            kind: self.kind,
            inputs: &self.inputs,
            output: self.output,
        }
    }

    /// What the gate computes of the bits at its inputs.
    pub(crate) fn value(&self, values: &[bool]) -> bool
        requires fits { HasInputs self.now.kind (length self.now.inputs) }
        requires nets { All (λ net. net < length values.now) self.now.inputs }
        ensures { result ≡ cover_value (gate_cover self.now.kind) (values_at values.now self.now.inputs) }
    {
        match self.kind {
            FitKind::Inv => !self.bit(0, values),
            FitKind::And2 => both(self.bit(0, values), self.bit(1, values)),
            FitKind::Or2 => either(self.bit(0, values), self.bit(1, values)),
            _ => false,
        }
    }

    /// The bit at one of the inputs.
    fn bit(&self, pin: usize, values: &[bool]) -> bool
        requires pin { pin < length self.now.inputs }
        requires nets { All (λ net. net < length values.now) self.now.inputs }
        ensures { (net : ℕ) → slice_get self.now.inputs pin ≡ Some net → slice_get values.now net ≡ Some result }
    {
        let inputs = &self.inputs;
        bit_at(inputs, pin, values)
    }
}

/// The bit at one of these nets.
fn bit_at(nets: &[NetId], place: usize, values: &[bool]) -> bool
    requires place { place < length nets.now }
    requires nets { All (λ net. net < length values.now) nets.now }
    ensures { (net : ℕ) → slice_get nets.now place ≡ Some net → slice_get values.now net ≡ Some result }
{
    values[nets[place].number() as usize]
}

/// Whether both bits are 1.
fn both(first: bool, second: bool) -> bool
    ensures { result ≡ first && second }
{
    first && second
}

/// Whether one of the bits is 1.
fn either(first: bool, second: bool) -> bool
    ensures { result ≡ first || second }
{
    first || second
}

/// What a gate computes of which nets, by their numbers.
#[derive(Clone, Copy, PartialEq, Eq, Hash)]
pub(crate) enum GateKey {
    /// The inverse of a net.
    Inverter(u32),

    /// The and of two nets, the net of the first pin first.
    And(u32, u32),

    /// The or of two nets, the net of the first pin first.
    Or(u32, u32),
}

/// Gates in order of addition, each of which is there once.
#[derive(Drop)]
pub(crate) struct Gates {
    by_key: IndexMap<GateKey, Gate>,
}

impl Model for Gates {
    ghost use Rattle.std.specs.Prelude.{List, map};
    ghost use Rattle.cg_machine.specs.Gates.{AddedGate};
    ghost use Rattle.cg_machine.specs.inner.Kept.{AreFiled};

    ghost Value = { List AddedGate };

    ghost view = { λ g. map (λ entry. entry.1) g.by_key.entries };

    ghost invariant = { λ g. AreFiled g.by_key.entries };
}

impl Gates {
    /// No gates yet.
    pub(crate) fn new(alloc: Global) -> Gates
        ensures { result ≡ [] }
    {
        Gates {
            by_key: IndexMap::new(alloc),
        }
    }

    /// How many gates there are.
    pub(crate) fn len(&self) -> usize
        ensures { result ≡ length self.now }
    {
        self.by_key.len()
    }

    /// The gate of this number.
    pub(crate) fn gate(&self, number: usize) -> &Gate
        requires { number < length self.now }
        ensures { slice_get self.now number ≡ Some result.now }
    {
        &self.by_key[number]
    }

    /// The output of the gate of this kind with these inputs, if it is there.
    pub(crate) fn find(&self, kind: FitKind, inputs: &[NetId]) -> Option<NetId>
        requires { HasInputs kind (length inputs.now) }
        ensures { result ≡ option_map (λ gate. gate.output) (find (is_gate kind inputs.now) self.now) }
    {
        match self.by_key.get(&key_of(kind, inputs)) {
            Some(gate) => Some(gate.output),
            None => None,
        }
    }

    /// Puts a gate that is not there behind the others.
    pub(crate) fn push(&mut self, gate: Gate) -> Result<(), AllocError>
        requires inputs { HasInputs gate.kind (length gate.inputs) }
        requires absent { find (is_gate gate.kind gate.inputs) self.old ≡ None }
        ensures pushed { OnOk result (self.new ≡ self.old ++ gate ∷ []) }
        ensures unchanged { OnErr result (self.new ≡ self.old) }
    {
        let key = key_of(gate.kind, &gate.inputs);
        self.by_key.insert(key, gate)?;
        Ok(())
    }

    /// The greatest number of inputs of a gate, 0 without gates.
    pub(crate) fn widest(&self) -> u32
        requires { All (λ gate. HasInputs gate.kind (length gate.inputs)) self.now }
        ensures { result ≡ widest_of (map gate_cell self.now) }
    {
        let mut widest = 0;
        for number in 0..self.len() {
            widest = widest.max(self.gate(number).inputs.len() as u32);
        }
        widest
    }

    /// Puts at the output of each gate its function of its inputs, one gate after another.
    pub(crate) fn put(&self, values: &mut [bool])
        requires inputs { All (λ gate. All (λ net. net < length values.old) gate.inputs) self.now }
        requires outputs { All (λ gate. gate.output < length values.old) self.now }
        requires fit { All (λ gate. HasInputs gate.kind (length gate.inputs)) self.now }
        ensures { values.new ≡ put_cells (map gate_cell self.now) values.old }
    {
        for number in 0..self.len() {
            let gate = self.gate(number);
            let bit = gate.value(values);
            values[gate.output.number() as usize] = bit;
        }
    }
}

/// The key of a gate of this kind with these inputs. Cells that gate a clock are no gates.
fn key_of(kind: FitKind, inputs: &[NetId]) -> GateKey
    requires { HasInputs kind (length inputs.now) }
    ensures { result ≡ key_of kind inputs.now }
{
    match kind {
        FitKind::Inv => GateKey::Inverter(inputs[0].number()),
        FitKind::And2 => GateKey::And(inputs[0].number(), inputs[1].number()),
        _ => GateKey::Or(inputs[0].number(), inputs[1].number()),
    }
}
