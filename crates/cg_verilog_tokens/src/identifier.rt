//! Identifiers.

ghost use Rattle.std.specs.Prelude.{◌≡◌, IsTrue};
ghost use Rattle.cg_cell.specs.Name.{is_name};

use std::marker::Model;

/// An identifier that is a name, lent by the text.
///
/// Clauses see its bytes.
#[derive(Drop)]
pub struct Identifier<'a> {
    bytes: &'a [u8],
}

impl<'a> Model for Identifier<'a> {
    ghost use Rattle.std.specs.Prelude.{IsTrue, List, ℕ};
    ghost use Rattle.cg_cell.specs.Name.{is_name};

    ghost Value = { List ℕ };

    ghost view = { λ i. i.bytes.now };

    ghost invariant = { λ i. IsTrue (is_name i.bytes.now) };
}

impl<'a> Identifier<'a> {
    /// The identifier of these bytes, which are a name.
    pub fn new(bytes: &'a [u8]) -> Identifier<'a>
        requires { IsTrue (is_name bytes.now) }
        ensures { result ≡ bytes.entry.now }
    {
        Identifier { bytes }
    }

    /// The bytes.
    pub fn bytes(&self) -> &'a [u8]
        ensures bytes { result.now ≡ self.now }
        ensures name { IsTrue (is_name self.now) }
    {
        self.bytes
    }
}
