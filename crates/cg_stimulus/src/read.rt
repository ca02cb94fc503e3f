//! Stimulus texts.

ghost use Rattle.std.specs.Prelude.{◌≡◌, [], Bool, List, Ok, length, IfOk, IsTrue};
ghost use Rattle.std.specs.List.{AllByRecursion};
ghost use Rattle.cg_cell.specs.Name.{is_name};
ghost use Rattle.cg_limit.specs.Answers.{OrNoMemory};
ghost use Rattle.cg_stimulus.specs.declared.fault.StimulusFault.TheVariants.{NoMemory};
ghost use Rattle.cg_stimulus.specs.Inputs.{input_names};
ghost use Rattle.cg_stimulus.specs.Reading.{rows_of, stimulus};
ghost use Rattle.cg_stimulus.specs.StimText.{StimText};

use crate::fault::StimulusFault;
use crate::header::{Header, read_header};
use crate::row::read_row;
use crate::stimulus::Stimulus;
use cg_netlist::netlist::Netlist;
use cg_text::lines::{BARE, Lines};
use std::alloc::Global;

/// Every net of a netlist has a name, and so has each data input.
fn inputs_have_names(netlist: &Netlist)
    ensures { AllByRecursion (λ name. IsTrue (is_name name)) (input_names netlist.now) }
{
    let _ = netlist.nets();
}

/// Puts the rows of these lines into a stimulus that has none.
fn read_rows(
    alloc: Global,
    header: &Header,
    lines: Lines<'_>,
    stimulus: Stimulus,
) -> Result<Stimulus, StimulusFault>
    requires none { stimulus.rows ≡ [] }
    requires wide { length header.now.columns ≡ length stimulus.inputs }
    ensures rows { OrNoMemory NoMemory (λ read. read.rows) result (rows_of header.now 0 lines.entry.left) }
    ensures inputs { IfOk result (λ read. read.inputs ≡ stimulus.inputs) }
{
    let mut lines = lines;
    let mut stimulus = stimulus;
    'rows: while let Ok(line) = lines.next_line() {
        let row = read_row(alloc, header, line)?;
        stimulus.push(alloc, &row)?;
    }
    Ok(stimulus)
}

/// The stimulus of a text, or its first fault.
fn read_text(alloc: Global, bytes: &[u8], netlist: &Netlist) -> Result<Stimulus, StimulusFault>
    ensures inputs { IfOk result (λ read. read.inputs ≡ input_names netlist.now) }
    ensures rows { OrNoMemory NoMemory (λ read. read.rows) result (stimulus (input_names netlist.now) bytes.now) }
{
    inputs_have_names(netlist);
    let stimulus = Stimulus::new(alloc, netlist)?;
    let mut lines = Lines::new(bytes, BARE);
    let Ok(first) = lines.next_line() else {
        return Err(StimulusFault::BadRow(0));
    };
    let header = read_header(alloc, stimulus.inputs(), first)?;
    read_rows(alloc, &header, lines, stimulus)
}

/// Reads the text of a stimulus for a netlist.
///
/// `#` begins a comment, and lines without words are passed over. The first line is the word `inputs` and the names of the
/// data inputs, each once, in any order. Each other line is a row: one word with a `0` or a `1` for each name, in the order
/// of the names, or the word `-` where there are none. The first fault is answered.
pub fn read_stimulus(
    alloc: Global,
    bytes: &[u8],
    netlist: &Netlist,
) -> Result<Stimulus, StimulusFault>
    ensures inputs { IfOk result (λ read. read.inputs ≡ input_names netlist.now) }
    ensures found { IfOk result (λ read. StimText (input_names netlist.now) bytes.now read.rows) }
    ensures only { (rows : List (List Bool)) → StimText (input_names netlist.now) bytes.now rows
        → OrNoMemory NoMemory (λ read. read.rows) result (Ok rows) }
    ensures exact { OrNoMemory NoMemory (λ read. read.rows) result (stimulus (input_names netlist.now) bytes.now) }
{
    read_text(alloc, bytes, netlist)
}
