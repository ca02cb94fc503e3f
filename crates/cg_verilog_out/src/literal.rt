//! Literals and terms, as they are written.

use cg_list::Seq;
use std::marker::Model;

/// A net, plain or inverted.
#[derive(Debug, Drop)]
pub(crate) struct OutLiteral<'a> {
    /// The name of the net.
    pub(crate) net: &'a [u8],

    /// Whether it stands as it is, and not inverted.
    pub(crate) plain: bool,
}

impl<'a> Model for OutLiteral<'a> {
    ghost use Rattle.std.specs.Prelude.{List, ℕ};
    ghost use Rattle.cg_verilog_text.specs.Forms.{Literal};

    ghost Value = { Literal (List ℕ) };

    ghost view = { λ l. record { net = l.net.now; plain = l.plain } };
}

/// A term: literals that are joined by `&`.
pub(crate) type Term<'a> = Seq<OutLiteral<'a>>;
