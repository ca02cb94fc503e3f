//! What stands before a literal.

ghost use Rattle.std.specs.Prelude.{◌≡◌};
ghost use Rattle.std.specs.List.{list_any};
ghost use Rattle.std.specs.Str.{bytes_eq};
ghost use Rattle.cg_verilog_expression.specs.Before.{before_seen};

use crate::term::{Literal, Term};

/// The literals that stand before one, of whose nets it may have none.
#[derive(Clone, Copy)]
pub enum Before<'b, 'a> {
    /// Those of a term so far.
    Term(&'b Term<'a>),

    /// One literal.
    One(&'b Literal<'a>),

    /// Two literals.
    Two(&'b Literal<'a>, &'b Literal<'a>),
}

/// Whether a net is that of one of the literals before.
pub fn stands_before(before: Before<'_, '_>, net: &[u8]) -> bool
    ensures { result ≡ list_any (λ literal. bytes_eq literal.net net.now) (before_seen before.entry) }
{
    match before {
        Before::Term(term) => term.has(net),
        Before::One(first) => first.net.bytes() == net,
        Before::Two(first, second) => first.net.bytes() == net || second.net.bytes() == net,
    }
}
