//! The first line of a stimulus text.

ghost use Rattle.std.specs.Prelude.{◌≡◌, [], length, IfOk, IsTrue};
ghost use Rattle.std.specs.List.{AllByRecursion};
ghost use Rattle.cg_cell.specs.Name.{is_name};
ghost use Rattle.cg_limit.specs.Answers.{OrNoMemory};
ghost use Rattle.cg_stimulus.specs.declared.fault.StimulusFault.TheVariants.{NoMemory};
ghost use Rattle.cg_stimulus.specs.Reading.{column_of, columns_of, header_of, names_from};

use crate::fault::StimulusFault;
use cg_cell::name::Name;
use cg_list::Seq;
use cg_net::names::NetNames;
use cg_text::lines::Line;
use cg_text::words::Words;
use std::alloc::Global;

/// Where the bits of a row stand in its word.
#[derive(Drop)]
pub(crate) struct Header {
    /// How many names the first line has.
    pub count: usize,
    /// For each data input the place of its name among them.
    pub columns: Seq<usize>,
}

/// The names behind the word `inputs`.
#[tactic(auto, using(crate::proofs::Columns::found_known))]
fn read_names(
    alloc: Global,
    line: u64,
    inputs: &NetNames,
    words: Words<'_>,
) -> Result<NetNames, StimulusFault>
    ensures { OrNoMemory NoMemory (λ names. names) result (names_from line inputs.now [] words.entry) }
{
    let mut words = words;
    let mut names = NetNames::new(alloc);
    'names: while let Some(word) = words.next_word() {
        if inputs.find(word).is_none() || names.find(word).is_some() {
            return Err(StimulusFault::BadName(line));
        }
        names.intern(alloc, word)?;
    }
    Ok(names)
}

/// The place of a name among these, or `None` where it is none of them.
fn column_of(names: &NetNames, name: &[u8]) -> Option<usize>
    ensures { result ≡ column_of names.now name.now }
{
    let _ = names.len();
    names.find(name)
}

/// The place of each data input among the names.
fn find_columns(
    alloc: Global,
    names: &NetNames,
    inputs: &NetNames,
) -> Result<Seq<usize>, StimulusFault>
    requires { AllByRecursion (λ name. IsTrue (is_name name)) inputs.now }
    ensures columns { OrNoMemory NoMemory (λ columns. columns) result (columns_of names.now inputs.now) }
    ensures wide { IfOk result (λ columns. length columns ≡ length inputs.now) }
{
    let mut columns = Vec::new(alloc);
    'inputs: for place in 0..inputs.len() {
        let input = inputs.name(place);
        match column_of(names, input) {
            Some(column) => columns.push(column)?,
            None => return Err(StimulusFault::MissingInput(Name::new(alloc, input)?)),
        }
    }
    Ok(Seq::from_vec(columns))
}

/// Reads the first line of a text.
pub(crate) fn read_header(
    alloc: Global,
    inputs: &NetNames,
    line: Line<'_>,
) -> Result<Header, StimulusFault>
    requires { AllByRecursion (λ name. IsTrue (is_name name)) inputs.now }
    ensures wide { IfOk result (λ header. length header.columns ≡ length inputs.now) }
    ensures header { OrNoMemory NoMemory (λ header. header) result (header_of line.entry.number inputs.now line.entry.words) }
{
    let number = line.number;
    let mut words = line.words;
    match words.next_word() {
        Some(word) if word == b"inputs".as_slice() => {},
        _ => return Err(StimulusFault::BadRow(number)),
    }
    let names = read_names(alloc, number, inputs, words)?;
    let columns = find_columns(alloc, &names, inputs)?;
    Ok(Header {
        count: names.len(),
        columns,
    })
}
