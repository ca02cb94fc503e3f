//! Names of nets, cells and pins, as a word of a BLIF line can spell them.

ghost use Rattle.std.specs.Prelude.{◌≡◌, List, ℕ, IfOk, IsTrue};
ghost use Rattle.cg_cell.specs.Name.{is_name, is_name_byte};
ghost use Rattle.std.specs.List.{list_all};

use std::alloc::{AllocError, Global};
use std::marker::Model;

/// A name: one or more bytes from 33 to 255, none of them `#`, the last of them not `\`.
///
/// So a name is a word of a BLIF line that holds no comment and does not join its line to the next.
/// Clauses see a name as the list of its bytes.
#[derive(Debug, Drop)]
pub struct Name {
    bytes: Vec<u8>,
}

impl Model for Name {
    ghost Value = { List ℕ };

    ghost view = { λ n. n.bytes.items };

    ghost invariant = { λ n. IsTrue (is_name n.bytes.items) };
}

impl Clone for Name {
    ghost is_clone = { λ x y. y ≡ x };

    fn clone(&self) -> Result<Name, AllocError> {
        let bytes = self.bytes.clone()?;
        Ok(Name { bytes })
    }
}

impl Name {
    /// Whether the bytes are a name.
    pub fn is_name(bytes: &[u8]) -> bool
        ensures { result ≡ is_name bytes.now }
    {
        match bytes.last() {
            None => false,
            Some(last) => *last != b'\\' && are_name_bytes(bytes),
        }
    }

    /// A name of its own copy of the bytes, which must be a name.
    pub fn new(alloc: Global, bytes: &[u8]) -> Result<Name, AllocError>
        requires { IsTrue (is_name bytes.now) }
        ensures { IfOk result (λ name. name ≡ bytes.now) }
    {
        let bytes = Vec::from_slice(alloc, bytes)?;
        Ok(Name { bytes })
    }

    /// The bytes of the name.
    pub fn bytes(&self) -> &[u8]
        ensures bytes { result.now ≡ self.now }
        ensures name { IsTrue (is_name self.now) }
    {
        &self.bytes
    }
}

/// Whether each byte may stand in a name.
fn are_name_bytes(bytes: &[u8]) -> bool
    ensures { result ≡ list_all is_name_byte bytes.now }
{
    bytes.iter().all(|byte| *byte > 32 && *byte != b'#')
}
