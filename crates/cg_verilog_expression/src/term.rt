//! Literals, and the terms that they are.

ghost use Rattle.std.specs.Prelude.{◌≡◌, ◌∷◌, ◌++◌, ◌<◌, ◌≤◌, [], length, nat_lt, IfOk, OnOk};
ghost use Rattle.std.specs.List.{list_any};
ghost use Rattle.std.specs.Str.{bytes_eq};
ghost use Rattle.cg_verilog_text.specs.Forms.{inverse};
ghost use Rattle.cg_verilog_expression.specs.Terms.{AreKnown, HasTable};
ghost use Rattle.cg_verilog_expression.specs.declared.term.TheConstants.{MOST_WITHOUT_TABLE};

use crate::net::Net;
use cg_list::Seq;
use cg_net::names::NetNames;
use std::alloc::{AllocError, Global};
use std::marker::Model;

/// A net, plain or inverted.
#[derive(Drop)]
pub struct Literal<'a> {
    /// The net.
    pub net: Net<'a>,

    /// Whether it stands as it is, and not inverted.
    pub plain: bool,
}

impl<'a> Model for Literal<'a> {
    ghost use Rattle.std.specs.Prelude.{List, ℕ};
    ghost use Rattle.cg_verilog_text.specs.Forms.{Literal as LiteralSeen};

    ghost Value = { LiteralSeen (List ℕ) };

    ghost view = { λ l. record { net = l.net; plain = l.plain } };
}

impl<'a> Literal<'a> {
    /// The same literal.
    pub fn copied(&self, alloc: Global) -> Result<Literal<'a>, AllocError>
        ensures { IfOk result (λ literal. literal ≡ self.now) }
    {
        Ok(Literal {
            net: self.net.copied(alloc)?,
            plain: self.plain,
        })
    }

    /// The literal of the other bit.
    pub fn inverse(&self, alloc: Global) -> Result<Literal<'a>, AllocError>
        ensures { IfOk result (λ literal. literal ≡ inverse self.now) }
    {
        Ok(Literal {
            net: self.net.copied(alloc)?,
            plain: !self.plain,
        })
    }
}

/// How many literals a term may have before its nets are kept in a table: fewer are looked through one by one.
const MOST_WITHOUT_TABLE: usize = 16;

/// The table of the nets of a term.
#[derive(Drop)]
pub enum Table {
    /// A term of so few literals has none.
    Without,

    /// Its nets. They stand in a box, since few terms have them.
    With(Box<NetNames>),
}

/// The literals of a term, as far as it was read.
///
/// Clauses see the literals. A long term has a table of its nets, so that a net that comes again is found without a look at
/// each literal before it.
#[derive(Drop)]
pub struct Term<'a> {
    literals: Seq<Literal<'a>>,
    table: Table,
}

impl<'a> Model for Term<'a> {
    ghost use Rattle.std.specs.Prelude.{List, ℕ};
    ghost use Rattle.cg_verilog_text.specs.Forms.{Literal as LiteralSeen};
    ghost use Rattle.cg_verilog_expression.specs.Terms.{HasTable};

    ghost Value = { List (LiteralSeen (List ℕ)) };

    ghost view = { λ t. t.literals };

    ghost invariant = { λ t. HasTable t.literals t.table };
}

impl<'a> Term<'a> {
    /// A term without literals.
    pub fn new(alloc: Global) -> Term<'a>
        ensures { result ≡ [] }
    {
        Term {
            literals: Seq::new(alloc),
            table: Table::Without,
        }
    }

    /// Whether it has so few literals that one more needs no table.
    pub fn is_short(&self) -> bool
        ensures { result ≡ nat_lt (length self.now) MOST_WITHOUT_TABLE }
    {
        self.literals.len() < MOST_WITHOUT_TABLE
    }

    /// Puts a literal behind the few that it has.
    pub fn push(&mut self, literal: Literal<'a>) -> Result<(), AllocError>
        requires { length self.old < MOST_WITHOUT_TABLE }
        ensures { OnOk result (self.new ≡ self.old ++ literal.entry ∷ []) }
    {
        self.table = Table::Without;
        self.literals.push(literal)?;
        Ok(())
    }

    /// This term with one literal more.
    pub fn with(self, alloc: Global, literal: Literal<'a>) -> Result<Term<'a>, AllocError>
        ensures { IfOk result (λ term. term ≡ self.entry ++ literal.entry ∷ []) }
    {
        let Term { literals, table } = self;
        let table = table_with(alloc, table, literals.as_slice(), &literal)?;
        let mut literals = literals;
        literals.push(literal)?;
        Ok(Term { literals, table })
    }

    /// The literals.
    pub fn into_literals(self) -> Seq<Literal<'a>>
        ensures { result ≡ self.entry }
    {
        self.literals
    }

    /// Whether a net is that of a literal.
    pub fn has(&self, net: &[u8]) -> bool
        ensures { result ≡ list_any (λ literal. bytes_eq literal.net net.now) self.now }
    {
        match &self.table {
            Table::Without => is_among(self.literals.as_slice(), net),
            Table::With(table) => table.find(net).is_some(),
        }
    }
}

/// Whether a net is that of one of these literals.
fn is_among(literals: &[Literal<'_>], net: &[u8]) -> bool
    ensures { result ≡ list_any (λ literal. bytes_eq literal.net net.now) literals.now }
{
    literals.iter().any(|literal| literal.net.bytes() == net)
}

/// The table of a term that gets one literal more.
fn table_with(
    alloc: Global,
    table: Table,
    literals: &[Literal<'_>],
    next: &Literal<'_>,
) -> Result<Table, AllocError>
    requires { HasTable literals.now table }
    ensures { IfOk result (λ table. HasTable (literals.now ++ next.now ∷ []) table) }
{
    if literals.len() < MOST_WITHOUT_TABLE {
        return Ok(Table::Without);
    }
    let mut table = full_table(alloc, table, literals)?;
    table.intern(alloc, next.net.bytes())?;
    Ok(Table::With(table))
}

/// The table of so many literals that they have one: it is made when there are as many for the first time.
fn full_table(
    alloc: Global,
    table: Table,
    literals: &[Literal<'_>],
) -> Result<Box<NetNames>, AllocError>
    requires { HasTable literals.now table }
    ensures { IfOk result (λ table. AreKnown literals.now table.value) }
{
    match table {
        Table::With(table) => Ok(table),
        Table::Without => {
            let table = table_of(alloc, literals)?;
            Ok(Box::new(alloc, table)?)
        }
    }
}

/// A table of the nets of literals.
fn table_of(alloc: Global, literals: &[Literal<'_>]) -> Result<NetNames, AllocError>
    ensures { IfOk result (AreKnown literals.now) }
{
    let mut table = NetNames::new(alloc);
    'literals: for literal in literals {
        table.intern(alloc, literal.net.bytes())?;
    }
    Ok(table)
}
