//! Stimuli: the bits that the data inputs of a netlist are given, row by row.

ghost use Rattle.std.specs.Prelude.{◌≡◌, ◌≢◌, ◌<◌, ◌++◌, ◌∷◌, [], Some, length, map, nat_eq, slice_get, IfOk, IfErr, OnErr, OnOk};
ghost use Rattle.std.specs.List.{All, AllPairs, IsDistinct};
ghost use Rattle.cg_limit.specs.declared.TheConstants.{MOST_ROWS};
ghost use Rattle.cg_net.specs.Names.{net_name};
ghost use Rattle.cg_stimulus.specs.Inputs.{IsStimulus, input_names};
ghost use Rattle.cg_stimulus.specs.Pushing.{PushRefuses};

use crate::bit_rows::BitRows;
use crate::fault::StimulusFault;
use cg_limit::{Limit, MOST_ROWS};
use cg_net::id::NetId;
use cg_net::names::NetNames;
use cg_netlist::netlist::Netlist;
use std::alloc::{AllocError, Global};
use std::marker::Model;

/// The bits that the data inputs of a netlist are given, row by row.
///
/// Clauses see the names of the data inputs, in the order of the netlist, and the rows, each with a bit for each of them.
#[derive(Drop)]
pub struct Stimulus {
    inputs: NetNames,
    rows: BitRows,
}

impl Model for Stimulus {
    ghost use Rattle.cg_stimulus.specs.Inputs.{Rows, IsStimulus};

    ghost Value = { Rows };

    ghost view = { λ s. record { inputs = s.inputs; rows = s.rows } };

    ghost invariant = { λ s. IsStimulus (record { inputs = s.inputs; rows = s.rows }) };
}

impl Stimulus {
    /// A stimulus for a netlist, without rows.
    pub fn new(alloc: Global, netlist: &Netlist) -> Result<Stimulus, AllocError>
        ensures inputs { IfOk result (λ stimulus. stimulus.inputs ≡ input_names netlist.now) }
        ensures rows { IfOk result (λ stimulus. stimulus.rows ≡ []) }
    {
        Ok(Stimulus {
            inputs: names_of(alloc, netlist)?,
            rows: BitRows::new(alloc),
        })
    }

    /// Puts a row behind the others, which must have a bit for each data input.
    ///
    /// A stimulus has at most [`MOST_ROWS`] rows. A refusal leaves it as it was.
    pub fn push(&mut self, _alloc: Global, bits: &[bool]) -> Result<(), StimulusFault>
        requires wide { length bits.now ≡ length self.old.inputs }
        ensures inputs { self.new.inputs ≡ self.old.inputs }
        ensures rows { OnOk result (self.new.rows ≡ self.old.rows ++ bits.now ∷ []) }
        ensures within { OnOk result (length self.old.rows < MOST_ROWS) }
        ensures refused { OnErr result (self.new.rows ≡ self.old.rows) }
        ensures cause { IfErr result (λ fault. PushRefuses self.old fault) }
    {
        if self.rows.len() as usize >= MOST_ROWS {
            return Err(StimulusFault::Limit(Limit::Rows));
        }
        self.rows.push(bits)?;
        Ok(())
    }

    /// The number of rows.
    pub fn rows(&self) -> u32
        ensures count { result ≡ length self.now.rows }
        ensures stimulus { IsStimulus self.now }
    {
        self.rows.len()
    }

    /// The number of data inputs for which the stimulus is.
    pub fn width(&self) -> usize
        ensures { result ≡ length self.now.inputs }
    {
        self.inputs.len()
    }

    /// The bits of a row, which must be one of the stimulus.
    pub fn row(&self, number: u32) -> &[bool]
        requires { number < length self.now.rows }
        ensures bits { slice_get self.now.rows number ≡ Some result.now }
        ensures wide { length result.now ≡ length self.now.inputs }
    {
        self.rows.row(number)
    }

    /// The names of the data inputs.
    pub fn inputs(&self) -> &NetNames
        ensures { result.now ≡ self.now.inputs }
    {
        &self.inputs
    }
}

/// The names of a netlist's data inputs.
fn names_of(alloc: Global, netlist: &Netlist) -> Result<NetNames, AllocError>
    ensures { IfOk result (λ names. names ≡ input_names netlist.now) }
{
    let _ = netlist.nets();
    names_at(alloc, netlist, netlist.data_inputs())
}

/// The names of nets, each of which is given once at most.
fn names_at(alloc: Global, netlist: &Netlist, nets: &[NetId]) -> Result<NetNames, AllocError>
    requires nets { All (λ net. net < length netlist.now.names) nets.now }
    requires once { IsDistinct nat_eq nets.now }
    requires different { AllPairs (λ name other. name ≢ other) netlist.now.names }
    ensures { IfOk result (λ names. names ≡ map (net_name netlist.now.names) nets.now) }
{
    let mut names = NetNames::new(alloc);
    for net in nets {
        names.intern(alloc, netlist.name(*net))?;
    }
    Ok(names)
}
