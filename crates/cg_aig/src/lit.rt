//! Literals of and-inverter lists.

ghost use Rattle.std.specs.Prelude.{◌≡◌, ℕ, Bool, List, IsTrue, not};
ghost use Rattle.cg_cell.specs.Domain.{Seen};
ghost use Rattle.cg_aig.specs.Aig.{aig_ops, inverse, lit_bit};

use std::marker::Model;

/// A node of an and-inverter list, or its inverse.
///
/// Clauses see a literal as its number: twice its node, plus 1 where it is inverted. So 0 and 1 are the
/// constants, and the leaves of a list are 2, 4 and so on.
#[derive(Clone, Copy, PartialEq, Eq)]
pub struct AigLit {
    number: u32,
}

impl Model for AigLit {
    ghost Value = { ℕ };

    ghost view = { λ lit. lit.number };

    ghost inverse = { λ number. record { number = number } };
}

impl AigLit {
    /// The literal of a number.
    pub(crate) fn of(number: u32) -> AigLit
        ensures { result ≡ number }
    {
        AigLit { number }
    }

    /// The literal's number: twice its node, plus 1 where it is inverted.
    pub fn number(self) -> u32
        ensures { result ≡ self }
    {
        self.number
    }

    /// The inverse literal. Whatever the values of the nodes are, its bit is the other one. It is of the same node,
    /// and so valid in every list in which the literal is.
    pub fn not(self) -> AigLit
        ensures number { result ≡ inverse self }
        ensures valid { (list : Seen) → IsTrue (aig_ops.is_valid list self) → IsTrue (aig_ops.is_valid list result) }
        ensures bit { (values : List Bool) → lit_bit values result ≡ not (lit_bit values self) }
    {
        AigLit {
            number: if self.number % 2 == 0 {
                self.number + 1
            } else {
                self.number - 1
            },
        }
    }
}
