//! Values that stand for bits, and the three operations on them.
//!
//! One evaluation of a function serves truth values and and-inverter lists alike: both are a [`Domain`].

ghost use Rattle.std.specs.Prelude.{◌≡◌, ℕ, IsTrue, IfOk, IfErr, OnErr};
ghost use Rattle.cg_cell.specs.Domain.{Seen, Made, Makes, Ops, IsDomain};

use std::convert::Infallible;

/// A set of values that stand for bits, with the operations `constant`, `not` and `and`.
///
/// Each operation gives exactly what the member `ops` defines, from the domain before the call and the
/// operands. Under each assignment a valid value stands for one bit, and keeps it whatever is called later.
pub trait Domain {
    /// A value: it stands for one bit under each assignment.
    type Value: Copy;

    /// Why an `and` may be refused.
    type Fault;

    ghost ops: { Ops };

    ghost seen: { Self → Seen };

    ghost number: { Self.Value → ℕ };

    ghost refuses: { Seen → ℕ → ℕ → Self.Fault → Type 0 };

    /// The value of a constant bit.
    fn constant(&mut self, bit: bool) -> Self::Value
        ensures sound { IsTrue (ops.is_sound (seen self.old)) }
        ensures made { Makes (seen self.old) (ops.constant_of (seen self.old) bit) (seen self.new) (number result) };

    /// The inverse of a value.
    fn not(&mut self, a: Self::Value) -> Self::Value
        requires { IsTrue (ops.is_valid (seen self.old) (number a)) }
        ensures { Makes (seen self.old) (ops.not_of (seen self.old) (number a)) (seen self.new) (number result) };

    /// The value that is 1 where both are. A refused call leaves the domain as it was, and its fault is one
    /// that the member `refuses` allows there.
    fn and(&mut self, a: Self::Value, b: Self::Value) -> Result<Self::Value, Self::Fault>
        requires left { IsTrue (ops.is_valid (seen self.old) (number a)) }
        requires right { IsTrue (ops.is_valid (seen self.old) (number b)) }
        ensures made { IfOk result (λ v. Makes (seen self.old) (ops.and_of (seen self.old) (number a) (number b)) (seen self.new) (number v)) }
        ensures refused { IfErr result (λ f. refuses (seen self.old) (number a) (number b) f) }
        ensures unchanged { OnErr result (seen self.new ≡ seen self.old) };

    ghost lawful: { IsDomain ops };
}

/// Truth values as a domain. Nothing is kept, and nothing is ever refused.
#[derive(Clone, Copy, Default, Drop)]
pub struct Bits;

impl Domain for Bits {
    ghost use Rattle.cg_cell.specs.Bits.{bits_ops, no_pairs, one_if};
    ghost use Rattle.cg_cell.specs.inner.BitsLaws.{bits_lawful};

    type Value = bool;

    type Fault = Infallible;

    ghost ops = { bits_ops };

    ghost seen = { λ _. no_pairs };

    ghost number = { one_if };

    ghost refuses = { λ s a b f. ⊥ };

    fn constant(&mut self, bit: bool) -> bool {
        bit
    }

    fn not(&mut self, a: bool) -> bool {
        !a
    }

    fn and(&mut self, a: bool, b: bool) -> Result<bool, Infallible> {
        Ok(a && b)
    }

    ghost lawful = { bits_lawful };
}
