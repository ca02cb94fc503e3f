//! What the data inputs of a circuit do.
//!
//! A stimulus is of one of the forms of [`StimulusForm`]: the words of the command line say which. A further form is one more case
//! of `take_stimulus` and of `rows_found`; its relation is one more of `DrivesNetlist`.

ghost use Rattle.std.specs.Prelude.{◌≡◌, IfOk};
ghost use Rattle.cg_run.specs.Verdict.{Answers};
ghost use Rattle.cg_source.specs.Stimulus.{dump_trouble, has_file, is_loaded, random_trouble, stimulus_found, stimulus_trouble};

use crate::refused::{at_place, plainly, with_name};
use cg_list::Seq;
use cg_netlist::fault::AddFault;
use cg_netlist::netlist::Netlist;
use cg_random::rows::random_rows;
use cg_run::{Owner, Trouble};
use cg_stimulus::fault::StimulusFault;
use cg_stimulus::read::read_stimulus;
use cg_stimulus::stimulus::Stimulus;
use cg_vcd::fault::VcdFault;
use cg_vcd::read::read_vcd;
use std::alloc::{AllocError, Global};

/// Where the rows of a stimulus come from.
#[derive(Clone, Copy, Debug, PartialEq, Eq)]
pub enum StimulusForm {
    /// A stimulus text: the names of data inputs, and then a line of bits for each row.
    Rows,

    /// A Value Change Dump: a row at each rise of the clock.
    Dump,

    /// So many rows by chance, of no file.
    Random(u32),
}

impl StimulusForm {
    /// Whether a stimulus of this form is the text of a file.
    pub fn has_file(self) -> bool
        ensures { result ≡ has_file self }
    {
        match self {
            StimulusForm::Rows | StimulusForm::Dump => true,
            StimulusForm::Random(_) => false,
        }
    }
}

/// Whether a file is loaded for the stimulus that is asked for, if one is.
pub fn is_loaded(asked: Option<StimulusForm>) -> bool
    ensures { result ≡ is_loaded asked }
{
    match asked {
        None => false,
        Some(form) => form.has_file(),
    }
}

/// The stimulus of this form for a netlist, by the text where the form has one.
pub fn take_stimulus(
    alloc: Global,
    form: StimulusForm,
    text: &Seq<u8>,
    netlist: &Netlist,
) -> Result<Stimulus, Trouble>
    ensures { Answers (stimulus_found form netlist.now text.now) result }
{
    match form {
        StimulusForm::Rows => take_rows(alloc, text, netlist),
        StimulusForm::Dump => take_dump(alloc, text, netlist),
        StimulusForm::Random(count) => take_random(alloc, text, netlist, count),
    }
}

/// The stimulus that a stimulus text says for a netlist.
fn take_rows(alloc: Global, text: &Seq<u8>, netlist: &Netlist) -> Result<Stimulus, Trouble>
    ensures { Answers (stimulus_found StimulusForm.Rows netlist.now text.now) result }
{
    match read_stimulus(alloc, text.as_slice(), netlist) {
        Ok(stimulus) => Ok(stimulus),
        Err(fault) => Err(stimulus_trouble(alloc, fault)?),
    }
}

/// The stimulus that a Value Change Dump says for a netlist.
fn take_dump(alloc: Global, text: &Seq<u8>, netlist: &Netlist) -> Result<Stimulus, Trouble>
    ensures { Answers (stimulus_found StimulusForm.Dump netlist.now text.now) result }
{
    match read_vcd(alloc, text.as_slice(), netlist) {
        Ok(stimulus) => Ok(stimulus),
        Err(fault) => Err(dump_trouble(alloc, fault)?),
    }
}

/// The stimulus of so many rows by chance for a netlist, whatever a text says.
fn take_random(
    alloc: Global,
    _text: &Seq<u8>,
    netlist: &Netlist,
    count: u32,
) -> Result<Stimulus, Trouble>
    ensures { Answers (stimulus_found (StimulusForm.Random count) netlist.now _text.now) result }
{
    match random_rows(alloc, netlist, count) {
        Ok(stimulus) => Ok(stimulus),
        Err(fault) => Err(random_trouble(fault)),
    }
}

/// Why rows by chance are refused.
fn random_trouble(fault: AddFault) -> Trouble
    ensures { result ≡ random_trouble fault }
{
    match fault {
        AddFault::Limit(limit) => Trouble::Limit(limit),
        AddFault::NoMemory => Trouble::NoMemory,
    }
}

/// Why a stimulus text is refused.
fn stimulus_trouble(alloc: Global, fault: StimulusFault) -> Result<Trouble, AllocError>
    ensures { IfOk result (λ trouble. trouble ≡ stimulus_trouble fault) }
{
    match fault {
        StimulusFault::BadName(line) => {
            at_place(alloc, Owner::Stimulus, b"stimulus: bad name ", line)
        }
        StimulusFault::MissingInput(input) => with_name(
            alloc,
            Owner::Stimulus,
            b"stimulus: missing input ",
            input.bytes(),
        ),
        StimulusFault::BadRow(line) => {
            at_place(alloc, Owner::Stimulus, b"stimulus: bad row ", line)
        }
        StimulusFault::Limit(limit) => Ok(Trouble::Limit(limit)),
        StimulusFault::NoMemory => Ok(Trouble::NoMemory),
    }
}

/// Why a Value Change Dump is refused.
fn dump_trouble(alloc: Global, fault: VcdFault) -> Result<Trouble, AllocError>
    ensures { IfOk result (λ trouble. trouble ≡ dump_trouble fault) }
{
    match fault {
        VcdFault::NoClock => plainly(alloc, Owner::Stimulus, b"vcd: no clock"),
        VcdFault::BadToken(line) => at_place(alloc, Owner::Stimulus, b"vcd: bad token ", line),
        VcdFault::MissingInput(input) => with_name(
            alloc,
            Owner::Stimulus,
            b"vcd: missing input ",
            input.bytes(),
        ),
        VcdFault::Unknown(line) => at_place(alloc, Owner::Stimulus, b"vcd: unknown value ", line),
        VcdFault::Limit(limit) => Ok(Trouble::Limit(limit)),
        VcdFault::NoMemory => Ok(Trouble::NoMemory),
    }
}
