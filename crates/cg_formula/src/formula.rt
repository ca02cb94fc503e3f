//! Formulas in conjunctive form.

ghost use Rattle.std.specs.Prelude.{◌≡◌};

use crate::clause_list::ClauseList;
use cg_list::Seq;

/// A variable, or its inverse.
///
/// Variables are counted from 1. A formula's are at most its own number of variables, a log's at most 2^31 - 1.
#[derive(Clone, Copy, Debug, PartialEq, Eq)]
pub struct Lit {
    /// The number of the variable.
    pub variable: u32,
    /// Whether the literal is true where the variable is false.
    pub inverted: bool,
}

impl Lit {
    ghost use Rattle.cg_formula.specs.Lits.{inverse, lit_number, same_lit};

    /// The literal that is true exactly where this one is false.
    pub fn inverse(self) -> Lit
        ensures { result ≡ inverse self }
    {
        Lit {
            variable: self.variable,
            inverted: !self.inverted,
        }
    }

    /// Whether the two are one literal.
    pub fn is(self, other: Lit) -> bool
        ensures { result ≡ same_lit self other }
    {
        self.variable == other.variable && self.inverted == other.inverted
    }

    /// The number of the literal, for tables with a place for each literal: twice its variable, and one more where
    /// it is inverted.
    pub fn number(self) -> usize
        ensures { result ≡ lit_number self }
    {
        2 * self.variable as usize + usize::from(self.inverted)
    }
}

/// A clause: one of its literals is to be true. The empty clause can't be satisfied.
#[derive(Debug, Drop)]
pub struct Clause {
    /// The literals, in the order in which they were given; one may stand twice.
    pub lits: Seq<Lit>,
}

/// A formula: each of its clauses is to be satisfied.
#[derive(Debug, Drop)]
pub struct Formula {
    /// How many variables there are, at most 16,777,216.
    pub variables: u32,
    /// The clauses; the first has the id 1.
    pub clauses: ClauseList,
}
