//! The inits that a text gives.

ghost use Rattle.std.specs.Prelude.{◌≡◌, ◌≤◌, length, IfOk};
ghost use Rattle.std.specs.List.{All, list_all};
ghost use Rattle.cg_net.specs.Names.{is_known};
ghost use Rattle.cg_verilog.specs.GivenInits.{are_of, no_inits, with_init};

use cg_net::names::NetNames;
use std::alloc::{AllocError, Global};
use std::marker::Model;

/// Nets that are given inits, each with the first one that it is given, and whether one was given a second.
#[derive(Drop)]
pub struct GivenInits {
    nets: NetNames,
    values: Vec<u8>,
    again: bool,
}

impl Model for GivenInits {
    ghost use Rattle.std.specs.Prelude.{◌≡◌, ◌≤◌, length};
    ghost use Rattle.std.specs.List.{All};
    ghost use Rattle.cg_verilog.specs.GivenInits.{GivenInits as InitsSeen};

    ghost Value = { InitsSeen };

    ghost view = { λ g. record { nets = g.nets; values = g.values.items; again = g.again } };

    ghost invariant = { λ g. (length g.values.items ≡ length g.nets) × All (λ value. value ≤ 3) g.values.items };
}

impl GivenInits {
    /// No inits.
    pub fn new(alloc: Global) -> GivenInits
        ensures { result ≡ no_inits }
    {
        GivenInits {
            nets: NetNames::new(alloc),
            values: Vec::new(alloc),
            again: false,
        }
    }

    /// These inits with one more.
    pub fn with(self, alloc: Global, net: &[u8], value: bool) -> Result<GivenInits, AllocError>
        ensures { IfOk result (λ inits. inits ≡ with_init self (record { net = net.now; value = value })) }
    {
        let GivenInits {
            nets,
            values,
            again,
        } = self;
        match nets.find(net) {
            Some(_) => Ok(GivenInits {
                nets,
                values,
                again: true,
            }),
            None => {
                let mut nets = nets;
                let mut values = values;
                nets.intern(alloc, net)?;
                values.push(u8::from(value))?;
                Ok(GivenInits {
                    nets,
                    values,
                    again,
                })
            }
        }
    }

    /// Whether no net is given an init twice, and each is that of a register.
    pub fn are_of(&self, registers: &NetNames) -> bool
        ensures { result ≡ are_of registers.now self.now }
    {
        !self.again && are_known(registers, &self.nets)
    }

    /// The nets.
    pub fn nets(&self) -> &NetNames
        ensures { result.now ≡ self.now.nets }
    {
        &self.nets
    }

    /// The inits of the nets, in their order.
    pub fn values(&self) -> &[u8]
        ensures values { result.now ≡ self.now.values }
        ensures each { length self.now.values ≡ length self.now.nets }
        ensures bits { All (λ value. value ≤ 3) self.now.values }
    {
        &self.values
    }
}

/// Whether each of some names is among others.
fn are_known(names: &NetNames, some: &NetNames) -> bool
    ensures { result ≡ list_all (is_known names.now) some.now }
{
    'names: for number in 0..some.len() {
        if names.find(some.name(number)).is_none() {
            return false;
        }
    }
    true
}
