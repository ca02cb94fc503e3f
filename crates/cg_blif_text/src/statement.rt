//! A line of a text: its words, its command, where it stands, and what it says.

ghost use Rattle.std.specs.Prelude.{◌≡◌, IsTrue};
ghost use Rattle.cg_cell.specs.Name.{is_name};

use cg_list::Seq;
use cg_netlist_placed::pin::PinWord;
use std::marker::Model;

/// A word of a line, lent by the text that is read or the netlist that is written. It is a name: it does not end in
/// `\`, which would join its line with the next one, and holds no `#`, which would begin a comment.
///
/// Contracts see it as its bytes.
#[derive(Debug, Drop)]
pub struct Word<'a> {
    bytes: &'a [u8],
}

impl<'a> Model for Word<'a> {
    ghost use Rattle.std.specs.Prelude.{List, ℕ, IsTrue};
    ghost use Rattle.cg_cell.specs.Name.{is_name};

    ghost Value = { List ℕ };

    ghost view = { λ w. w.bytes.now };

    ghost invariant = { λ w. IsTrue (is_name w.bytes.now) };
}

impl<'a> Word<'a> {
    /// The word of these bytes, which are a name.
    pub fn new(bytes: &'a [u8]) -> Word<'a>
        requires { IsTrue (is_name bytes.now) }
        ensures { result ≡ bytes.entry.now }
    {
        Word { bytes }
    }

    /// The bytes of the word.
    pub fn bytes(&self) -> &'a [u8]
        ensures bytes { result.now ≡ self.now }
        ensures name { IsTrue (is_name self.now) }
    {
        self.bytes
    }
}

/// The commands of the format.
#[derive(Clone, Copy, Debug, PartialEq, Eq)]
pub enum Command {
    /// `.model`: the name of the model.
    Model,

    /// `.inputs`: input nets.
    Inputs,

    /// `.outputs`: output nets.
    Outputs,

    /// `.clock`: nets that are declared to be the clock.
    Clocks,

    /// `.names`: a logic cell, whose rows follow.
    Names,

    /// `.latch`: a plain register.
    Latch,

    /// `.gate`: a placed cell of a library.
    Gate,

    /// `.cname`, `.attr`, `.param`: a line that is skipped.
    Skipped,

    /// `.end`: the end of the text.
    End,

    /// None of these.
    Other,
}

/// Where a line stands in a text, as far as it matters to what the line may be.
#[derive(Clone, Copy, Debug, PartialEq, Eq)]
pub enum Place {
    /// No line stands before it.
    First,

    /// Lines stand before it, and the first of them is no `.model` line.
    Unnamed,

    /// The first line is a `.model` line.
    Named,

    /// The `.end` line stands before it.
    Ended,
}

/// What a line says, by the names of the nets. A row of a cover is no statement: it belongs to the `.names` line before
/// it.
#[derive(Debug, Drop)]
pub enum Statement<'a> {
    /// `.model NAME`: the name of the model.
    Model(Word<'a>),

    /// `.inputs` and names: inputs of the netlist.
    Inputs(Seq<Word<'a>>),

    /// `.outputs` and names: outputs of the netlist.
    Outputs(Seq<Word<'a>>),

    /// `.clock` and names: nets that are declared to be the clock.
    Clocks(Seq<Word<'a>>),

    /// `.names` and one or more names: a logic cell of these inputs and this output, whose rows follow.
    Names(Seq<Word<'a>>, Word<'a>),

    /// `.latch`: a plain register of this input and this output, on this clock or on the one global clock, with an init
    /// from 0 to 3.
    Latch(Word<'a>, Word<'a>, Option<Word<'a>>, u8),

    /// `.gate`: a placed cell of a library, and what stands at its pins.
    Gate(Word<'a>, Seq<PinWord<'a>>),

    /// `.cname`, `.attr` or `.param`: a line that is skipped.
    Skipped,

    /// `.end`: the end of the text.
    End,
}
