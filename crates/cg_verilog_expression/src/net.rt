//! Reading nets.

ghost use Rattle.std.specs.Prelude.{◌≡◌, ◌∷◌, ◌++◌, [], IfOk, IsTrue};
ghost use Rattle.cg_cell.specs.Name.{is_name};
ghost use Rattle.cg_text.specs.Numbers.{is_number};
ghost use Rattle.cg_verilog_text.specs.Reading.{ended_by, indexed, is_numeral, net, pass};
ghost use Rattle.cg_verilog_expression.specs.Readings.{IsRead};

use crate::reading::Reading;
use crate::stop::Stop;
use cg_list::Seq;
use cg_verilog_tokens::identifier::Identifier;
use cg_verilog_tokens::numeral::Numeral;
use std::alloc::{AllocError, Global};
use std::marker::Model;

/// The name of a net: as it stands in the text, or made of a name and an index.
#[derive(Drop)]
pub enum NetText<'a> {
    /// The name stands in the text.
    Lent(Identifier<'a>),

    /// The name was made.
    Made(Seq<u8>),
}

/// A net, by its name.
#[derive(Drop)]
pub struct Net<'a> {
    text: NetText<'a>,
}

impl<'a> Model for Net<'a> {
    ghost use Rattle.std.specs.Prelude.{IsTrue, List, ℕ};
    ghost use Rattle.cg_cell.specs.Name.{is_name};
    ghost use Rattle.cg_verilog_expression.specs.Nets.{net_seen};

    ghost Value = { List ℕ };

    ghost view = { λ n. net_seen n.text };

    ghost invariant = { λ n. IsTrue (is_name (net_seen n.text)) };
}

impl<'a> Net<'a> {
    /// The bytes of its name.
    pub fn bytes(&self) -> &[u8]
        ensures bytes { result.now ≡ self.now }
        ensures name { IsTrue (is_name self.now) }
    {
        match &self.text {
            NetText::Lent(name) => name.bytes(),
            NetText::Made(name) => name.as_slice(),
        }
    }

    /// The same net.
    pub fn copied(&self, alloc: Global) -> Result<Net<'a>, AllocError>
        ensures { IfOk result (λ net. net ≡ self.now) }
    {
        let text = match &self.text {
            NetText::Lent(name) => NetText::Lent(Identifier::new(name.bytes())),
            NetText::Made(name) => {
                NetText::Made(Seq::from_vec(Vec::from_slice(alloc, name.as_slice())?))
            }
        };
        Ok(Net { text })
    }
}

impl<'a> Reading<'a> {
    /// Reads a net: a name, or a plain identifier and a number in brackets.
    #[inline(always)]
    pub fn net(&mut self, alloc: Global) -> Result<Net<'a>, Stop>
        ensures end { self.new.1 ≡ self.old.1 }
        ensures left { IsRead self.old.1 (net self.old.0) self.new.0 result }
    {
        let plain = self.is_plain();
        let name = self.name()?;
        if plain && self.is_mark(b'[') {
            self.pass();
            return self.indexed(alloc, name);
        }
        Ok(Net {
            text: NetText::Lent(name),
        })
    }

    /// Reads the rest of a net behind its name and the `[`.
    fn indexed(&mut self, alloc: Global, name: Identifier<'a>) -> Result<Net<'a>, Stop>
        ensures end { self.new.1 ≡ self.old.1 }
        ensures left { IsRead self.old.1 (indexed name.entry self.old.0) self.new.0 result }
    {
        let index = self.closed_numeral()?;
        let net = indexed_net(alloc, name.bytes(), index.digits())?;
        Ok(net)
    }

    /// Reads a number and the `]` behind it.
    pub fn closed_numeral(&mut self) -> Result<Numeral<'a>, Stop>
        ensures end { self.new.1 ≡ self.old.1 }
        ensures left { IsRead self.old.1 (ended_by 93 (pass is_numeral self.old.0)) self.new.0 result }
    {
        let index = self.numeral()?;
        self.mark(b']')?;
        Ok(index)
    }
}

/// The net of a name with an index in brackets.
fn indexed_net<'a>(alloc: Global, name: &[u8], index: &[u8]) -> Result<Net<'a>, AllocError>
    requires name { IsTrue (is_name name.now) }
    requires index { IsTrue (is_number index.now) }
    ensures { IfOk result (λ net. net ≡ name.now ++ 91 ∷ (index.now ++ 93 ∷ [])) }
{
    let mut made = Vec::new(alloc);
    made.extend_from_slice(name)?;
    made.push(b'[')?;
    made.extend_from_slice(index)?;
    made.push(b']')?;
    Ok(Net {
        text: NetText::Made(Seq::from_vec(made)),
    })
}
