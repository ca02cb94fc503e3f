//! The term of a row, built of literals one after another.

ghost use Rattle.std.specs.Prelude.{◌≡◌, ◌<◌, ℕ, Option, Some, [], IfOk, List, OnOk, length, map, nat_eq, option_map};
ghost use Rattle.cg_net.specs.Names.{NetName};
ghost use Rattle.cg_netlist_placed.specs.Within.{AreNets, IsNet};
ghost use Rattle.cg_verilog_text.specs.CoverForms.{term_of, with_literal};
ghost use Rattle.cg_verilog_text.specs.Forms.{Literal};
ghost use Rattle.cg_verilog_out.specs.inner.OpenTerms.{IsNew, IsOpen, literal_named, with_place};

use crate::literal::{OutLiteral, Term};
use cg_list::Seq;
use cg_net::id::NetId;
use cg_net::net_set::NetSet;
use cg_netlist::netlist::Netlist;
use std::alloc::{AllocError, Global};
use std::marker::Model;
use std::mem;

/// A term that is built, and the nets that it has: so a net that comes again is known at once, in a row of any length.
#[derive(Drop)]
pub(crate) struct OpenTerm<'a> {
    literals: Vec<OutLiteral<'a>>,
    ones: NetSet,
    zeros: NetSet,
    ended: bool,
}

impl<'a> Model for OpenTerm<'a> {
    ghost use Rattle.cg_verilog_out.specs.inner.OpenTerms.{Built};

    ghost Value = { Built };

    ghost view = { λ t. record { literals = t.literals.items; ones = t.ones; zeros = t.zeros; ended = t.ended } };
}

impl<'a> OpenTerm<'a> {
    /// A term without literals.
    pub(crate) fn new(alloc: Global) -> OpenTerm<'a>
        ensures { (names : List NetName) → IsOpen names result (Some []) }
    {
        OpenTerm {
            literals: Vec::new(alloc),
            ones: NetSet::new(alloc),
            zeros: NetSet::new(alloc),
            ended: false,
        }
    }

    /// Puts a literal behind the others, if its net is new. A net that comes with its other bit ends the term.
    fn add(&mut self, netlist: &'a Netlist, net: NetId, plain: bool) -> Result<(), AllocError>
        requires { IsNet netlist.now net }
        ensures { OnOk result ((term : Option (List (Literal ℕ))) → IsOpen netlist.entry.now.names self.old term
            → IsOpen netlist.entry.now.names self.new (with_literal nat_eq term (record { net = net; plain = plain }))) }
    {
        if self.ended {
            return Ok(());
        }
        if self.ones.contains(net) {
            self.ended = !plain;
            return Ok(());
        }
        if self.zeros.contains(net) {
            self.ended = plain;
            return Ok(());
        }
        self.put(netlist, net, plain)
    }

    /// Puts a literal of a new net behind the others.
    fn put(&mut self, netlist: &'a Netlist, net: NetId, plain: bool) -> Result<(), AllocError>
        requires { IsNet netlist.now net }
        ensures { OnOk result ((term : Option (List (Literal ℕ))) → IsOpen netlist.entry.now.names self.old term
            → IsNew self.old net
            → IsOpen netlist.entry.now.names self.new (with_literal nat_eq term (record { net = net; plain = plain }))) }
    {
        let name = netlist.name(net);
        self.literals.push(OutLiteral { net: name, plain })?;
        if plain {
            self.ones.insert(net)
        } else {
            self.zeros.insert(net)
        }
    }

    /// Puts the literal of a place of a row behind the others, if the row gives the net a bit.
    fn add_place(
        &mut self,
        netlist: &'a Netlist,
        net: NetId,
        place: Option<bool>,
    ) -> Result<(), AllocError>
        requires { IsNet netlist.now net }
        ensures { OnOk result ((term : Option (List (Literal ℕ))) → IsOpen netlist.entry.now.names self.old term
            → IsOpen netlist.entry.now.names self.new (with_place term net place)) }
    {
        match place {
            None => Ok(()),
            Some(plain) => self.add(netlist, net, plain),
        }
    }

    /// Puts the literals of a row over these nets behind the others.
    fn add_row(
        &mut self,
        netlist: &'a Netlist,
        inputs: &[NetId],
        row: &[Option<bool>],
    ) -> Result<(), AllocError>
        requires inputs { AreNets netlist.now inputs.now }
        requires long { length row.now ≡ length inputs.now }
        requires none { IsOpen netlist.now.names self.old (Some []) }
        ensures { OnOk result (IsOpen netlist.entry.now.names self.new (term_of nat_eq inputs.now row.now)) }
    {
        'places: for at in 0..row.len() {
            self.add_place(netlist, inputs[at], row[at])?;
        }
        Ok(())
    }

    /// The term, if no net had both bits; the next one begins without literals, at the cost of those that there were.
    fn take(&mut self, alloc: Global) -> Option<Term<'a>>
        ensures term { (names : List NetName) (term : Option (List (Literal ℕ))) → IsOpen names self.old term
            → result ≡ option_map (map (literal_named names)) term }
        ensures none { (names : List NetName) → IsOpen names self.new (Some []) }
    {
        self.ones.clear();
        self.zeros.clear();
        let ended = mem::replace(&mut self.ended, false);
        let literals = mem::replace(&mut self.literals, Vec::new(alloc));
        if ended {
            None
        } else {
            Some(Seq::from_vec(literals))
        }
    }

    /// The term of a row over these nets, if no net has both bits. Takes time as the row is long.
    pub(crate) fn of_row(
        &mut self,
        alloc: Global,
        netlist: &'a Netlist,
        inputs: &[NetId],
        row: &[Option<bool>],
    ) -> Result<Option<Term<'a>>, AllocError>
        requires inputs { AreNets netlist.now inputs.now }
        requires long { length row.now ≡ length inputs.now }
        requires none { IsOpen netlist.now.names self.old (Some []) }
        ensures term { IfOk result (λ term. term ≡ option_map (map (literal_named netlist.entry.now.names)) (term_of nat_eq inputs.now row.now)) }
        ensures none { OnOk result (IsOpen netlist.entry.now.names self.new (Some [])) }
    {
        self.add_row(netlist, inputs, row)?;
        Ok(self.take(alloc))
    }
}
