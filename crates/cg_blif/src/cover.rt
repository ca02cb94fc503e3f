//! The rows behind a `.names` line, until a line that is no row.

ghost use Rattle.std.specs.Prelude.{◌≡◌, ◌≤◌, [], length, IfOk, IfSome, MatchBool, Option, None, Some};
ghost use Rattle.cg_cell.specs.Cover.{CoverFits};
ghost use Rattle.cg_limit.specs.declared.TheConstants.{MOST_COVER_INPUTS};
ghost use Rattle.cg_blif_text.specs.Rows.{keeps_value, row_of, row_place, row_places, row_with, value_of};
ghost use Rattle.cg_blif_text.specs.OpenCovers.{cover_so_far, with_row};

use cg_blif_text::statement::Word;
use cg_cell::cover::Cover;
use cg_cell::rows::CoverRows;
use cg_cell::shared_covers::SharedCovers;
use cg_list::Seq;
use std::alloc::{AllocError, Global};
use std::marker::Model;

/// The nets of a `.names` line, and what the rows behind it said so far.
///
/// Contracts see the nets, the rows, and the value of the rows, which none has before the first of them.
#[derive(Drop)]
pub struct OpenCover<'a> {
    inputs: Seq<Word<'a>>,
    output: Word<'a>,
    rows: CoverRows,
    on: Option<bool>,
}

impl<'a> Model for OpenCover<'a> {
    ghost use Rattle.cg_blif_text.specs.OpenCovers.{CoverSoFar, IsOpen};

    ghost Value = { CoverSoFar };

    ghost view = { λ o. record { inputs = o.inputs; output = o.output; rows = o.rows; on = o.on } };

    ghost invariant = { λ o. IsOpen (record { inputs = o.inputs; output = o.output; rows = o.rows; on = o.on }) };
}

impl<'a> OpenCover<'a> {
    /// The cover of a `.names` line with these nets, before its first row.
    pub fn new(alloc: Global, inputs: Seq<Word<'a>>, output: Word<'a>) -> OpenCover<'a>
        requires few { length inputs ≤ MOST_COVER_INPUTS }
        ensures { result ≡ record { inputs = inputs.entry; output = output.entry; rows = []; on = None } }
    {
        OpenCover {
            inputs,
            output,
            rows: CoverRows::new(alloc),
            on: None,
        }
    }

    /// Reads a line of these words as the next row; false where it is none or has another value than the rows before, and
    /// then the cover stays. `places` is taken for the row's places, whatever is in it.
    pub fn read_row(
        &mut self,
        places: &mut Vec<Option<bool>>,
        words: &[Word<'_>],
    ) -> Result<bool, AllocError>
        ensures { IfOk result (λ read. MatchBool read (with_row self.old (row_of (length self.old.inputs) words.now) ≡ Some self.new)
            ((with_row self.old (row_of (length self.old.inputs) words.now) ≡ None) × (self.new ≡ self.old))) }
    {
        match row_of(self.inputs.len(), words, places)? {
            None => Ok(false),
            Some(value) => self.add_row(places, value),
        }
    }

    /// Adds a row with a place for each input; false where its value is another than that of the rows before.
    fn add_row(&mut self, places: &[Option<bool>], value: bool) -> Result<bool, AllocError>
        requires { length places.now ≡ length self.old.inputs }
        ensures { IfOk result (λ added. MatchBool added
            (with_row self.old (Some (record { places = places.now; value = value })) ≡ Some self.new)
            ((with_row self.old (Some (record { places = places.now; value = value })) ≡ None) × (self.new ≡ self.old))) }
    {
        if !keeps_value(self.on, value) {
            return Ok(false);
        }
        self.rows.push(places)?;
        self.on = Some(value);
        Ok(true)
    }

    /// The inputs, the output and the cover of the rows, which is one of the shared ones.
    pub fn close(
        self,
        covers: &mut SharedCovers,
    ) -> Result<(Seq<Word<'a>>, Word<'a>, Cover), AllocError>
        ensures inputs { IfOk result (λ closed. closed.0 ≡ self.entry.inputs) }
        ensures output { IfOk result (λ closed. closed.1 ≡ self.entry.output) }
        ensures cover { IfOk result (λ closed. closed.2 ≡ cover_so_far self.entry) }
        ensures fits { CoverFits (length self.entry.inputs) (cover_so_far self.entry) }
        ensures few { length self.entry.inputs ≤ MOST_COVER_INPUTS }
    {
        let OpenCover {
            inputs,
            output,
            rows,
            on,
        } = self;
        let cover = covers.cover(rows, on.unwrap_or(true))?;
        Ok((inputs, output, cover))
    }
}

/// The value of the row of a cover with so many inputs that words say; its places are put into `places`.
fn row_of(
    inputs: usize,
    words: &[Word<'_>],
    places: &mut Vec<Option<bool>>,
) -> Result<Option<bool>, AllocError>
    ensures row { IfOk result (λ read. row_with (Some places.new.items) read ≡ row_of inputs words.now) }
    ensures long { IfOk result (λ read. IfSome read (λ _. length places.new.items ≡ inputs)) }
{
    match words {
        [value] if inputs == 0 => {
            places.clear();
            Ok(value_of(value.bytes()))
        }
        [row, value] if inputs != 0 && row.bytes().len() == inputs => {
            places_row(row.bytes(), value.bytes(), places)
        }
        _ => Ok(None),
    }
}

/// The value of the row of these places and this value.
fn places_row(
    row: &[u8],
    value: &[u8],
    places: &mut Vec<Option<bool>>,
) -> Result<Option<bool>, AllocError>
    ensures row { IfOk result (λ read. row_with (Some places.new.items) read ≡ row_with (row_places row.now) (value_of value.now)) }
    ensures long { IfOk result (λ read. IfSome read (λ _. length places.new.items ≡ length row.now)) }
{
    if read_places(row, places)? {
        Ok(value_of(value))
    } else {
        Ok(None)
    }
}

/// Whether a row of this value may stand behind rows of that value.
fn keeps_value(on: Option<bool>, value: bool) -> bool
    ensures { result ≡ keeps_value on value }
{
    match on {
        None => true,
        Some(on) => on == value,
    }
}

/// The value that a word says: `0` or `1`.
fn value_of(word: &[u8]) -> Option<bool>
    ensures { result ≡ value_of word.now }
{
    if word.len() != 1 {
        return None;
    }
    match word[0] {
        b'0' => Some(false),
        b'1' => Some(true),
        _ => None,
    }
}

/// The place of a row that a byte says: `0`, `1` or `-`; `None` for another byte.
fn place_of(byte: u8) -> Option<Option<bool>>
    ensures { result ≡ row_place byte }
{
    match byte {
        b'0' => Some(Some(false)),
        b'1' => Some(Some(true)),
        b'-' => Some(None),
        _ => None,
    }
}

/// Puts the places that a word says in place of those that are there; false where a byte is none of `0`, `1`, `-`.
#[tactic(auto, using(crate::proofs::RowLemmas::rows))]
fn read_places(word: &[u8], places: &mut Vec<Option<bool>>) -> Result<bool, AllocError>
    ensures { IfOk result
        (λ read. MatchBool read
        ((row_places word.now ≡ Some places.new.items) × (length places.new.items ≡ length word.now))
        (row_places word.now ≡ None)) }
{
    places.clear();
    'places: for byte in word {
        match place_of(*byte) {
            None => return Ok(false),
            Some(place) => places.push(place)?,
        }
    }
    Ok(true)
}
