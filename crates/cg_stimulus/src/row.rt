//! The rows of a stimulus text.

ghost use Rattle.std.specs.Prelude.{◌≡◌, ◌==◌, length, slice_index_or, IfOk};
ghost use Rattle.std.specs.List.{list_all};
ghost use Rattle.cg_limit.specs.Answers.{OrNoMemory};
ghost use Rattle.cg_stimulus.specs.declared.fault.StimulusFault.TheVariants.{NoMemory};
ghost use Rattle.cg_stimulus.specs.Reading.{is_bit_byte, says_row, bits_of, row_of};

use crate::fault::StimulusFault;
use crate::header::Header;
use cg_text::lines::Line;
use std::alloc::{AllocError, Global};

/// Whether a word says a row.
fn says_row(header: &Header, word: &[u8]) -> bool
    ensures { result ≡ says_row header.now word.now }
{
    if header.count == 0 {
        word == b"-".as_slice()
    } else {
        word.len() == header.count && are_bits(word)
    }
}

/// Whether each byte is a `0` or a `1`.
fn are_bits(word: &[u8]) -> bool
    ensures { result ≡ list_all is_bit_byte word.now }
{
    word.iter().all(|byte| *byte == b'0' || *byte == b'1')
}

/// The bits of a row, in the order of the data inputs.
fn bits_of(alloc: Global, header: &Header, word: &[u8]) -> Result<Vec<bool>, AllocError>
    ensures { IfOk result (λ bits. bits.items ≡ bits_of header.now word.now) }
{
    let mut bits = Vec::new(alloc);
    for column in header.columns.as_slice() {
        bits.push(bit_at(word, *column))?;
    }
    Ok(bits)
}

/// Whether a `1` stands at a place of the word.
fn bit_at(word: &[u8], column: usize) -> bool
    ensures { result ≡ (slice_index_or word.now column 0 == 49) }
{
    match word.get(column) {
        Some(byte) => *byte == b'1',
        None => false,
    }
}

/// Reads the row of a line.
pub(crate) fn read_row(
    alloc: Global,
    header: &Header,
    line: Line<'_>,
) -> Result<Vec<bool>, StimulusFault>
    ensures wide { IfOk result (λ row. length row.items ≡ length header.now.columns) }
    ensures row { OrNoMemory NoMemory (λ row. row.items) result (row_of line.entry.number header.now line.entry.words) }
{
    let number = line.number;
    let mut words = line.words;
    let word = words.next_word().ok_or(StimulusFault::BadRow(number))?;
    if !words.is_empty() || !says_row(header, word) {
        return Err(StimulusFault::BadRow(number));
    }
    Ok(bits_of(alloc, header, word)?)
}
