//! The netlist that a text says: what was read of the text so far, and one line more.

ghost use Rattle.std.specs.Prelude.{◌≡◌, IfErr, IfOk, MatchResult, None, true, Ok, false};
ghost use Rattle.std.specs.List.{AllByRecursion, list_all};
ghost use Rattle.std.specs.Result.{result_map_both};
ghost use Rattle.cg_blif.specs.Hearing.{Hears};
ghost use Rattle.cg_blif.specs.Resuming.{ClosesAt, FinishesAs, IsAt, IsFirstOrNoMemory, IsRead, IsReadAs, IsReadFrom, Resumes, left_of};
ghost use Rattle.cg_blif.specs.Resuming.{unfinished, HasBounds, ResumesAt, TakesStatement, is_model, misplaced};
ghost use Rattle.cg_blif_text.specs.BlifText.{BlifText};
ghost use Rattle.cg_blif_text.specs.Commands.{are_row};
ghost use Rattle.cg_blif_text.specs.LinesLeft.{closed_said};
ghost use Rattle.cg_blif_text.specs.LogicalLines.{text_lines};
ghost use Rattle.cg_blif_text.specs.Telling.{tell_lines, next_place};
ghost use Rattle.cg_blif_text.specs.declared.fault.BlifFault.TheVariants.{NoMemory};
ghost use Rattle.cg_cell.specs.Cell.{IsCell};
ghost use Rattle.cg_cell.specs.Name.{is_name};
ghost use Rattle.cg_netlist.specs.Circuit.{Circuit};
ghost use Rattle.cg_netlist_parts.specs.Said.{nothing_said};
ghost use Rattle.cg_netlist_parts.specs.Writable.{IsWritable};

use crate::cover::OpenCover;
use crate::fault::{Refusal, at_line};
use crate::lines::LogicalLines;
use crate::parts::{
    add_clock, add_clocks, add_cover, add_gate, add_inputs, add_latch, add_outputs,
};
use crate::statement::statement_of;
use cg_blif_text::fault::{BlifFault, LineFault};
use cg_blif_text::statement::{Place, Statement, Word};
use cg_cell::library::Library;
use cg_cell::name::Name;
use cg_cell::shared_covers::SharedCovers;
use cg_netlist::netlist::Netlist;
use cg_netlist_builder::builder::Builder;
use cg_netlist_parts::fault::NetFault;
use std::alloc::Global;
use std::mem;

/// What a reader of a BLIF text is told beside the text and the library.
#[derive(Debug, Drop)]
pub struct BlifOptions {
    /// A net that is declared to be the clock, as by a `.clock` line behind all other lines.
    pub clock: Option<Name>,
}

/// Reads a text with the cells of a library. One pass over the text, in time and memory as it is long.
pub fn read_blif(
    alloc: Global,
    text: &[u8],
    library: &Library,
    options: &BlifOptions,
) -> Result<Netlist, BlifFault>
    // The netlist is the one that the text says with the library, and with the clock of the options.
    ensures found { IfOk result (λ netlist. BlifText text.now library.now options.now.clock netlist) }

    // Each netlist that the text says is answered, unless memory is wanting.
    ensures only { (netlist : Circuit) → BlifText text.now library.now options.now.clock netlist
        → MatchResult result (λ found. found ≡ netlist) (λ fault. fault ≡ NoMemory) }

    // The fault is the first that the text has, or memory is wanting.
    ensures first { IfErr result (IsFirstOrNoMemory text.now library.now options.now.clock) }

    // The netlist can be written.
    ensures writable { IfOk result (IsWritable library.now) }
{
    let _ = library.len();
    read(alloc, text, library, options)
}

/// Reads a text with cells of a library.
fn read(
    alloc: Global,
    text: &[u8],
    library: &Library,
    options: &BlifOptions,
) -> Result<Netlist, BlifFault>
    requires { AllByRecursion IsCell library.now }
    ensures { IsReadFrom text.now library.now options.now.clock result }
{
    let builder = tell(alloc, text, library, options)?;
    finish(builder)
}

/// The netlist of the parts that a builder was told.
#[tactic(auto, using(crate::proofs::NetlistLemmas::finish_fails))]
fn finish(builder: Builder) -> Result<Netlist, BlifFault>
    requires { builder.refused ≡ None }
    ensures { FinishesAs builder result }
{
    match builder.finish() {
        Ok(netlist) => Ok(netlist),
        Err(fault) => Err(unfinished(fault)),
    }
}

/// The fault of a text whose parts have this one.
fn unfinished(fault: NetFault) -> BlifFault
    ensures { result ≡ unfinished fault }
{
    match fault {
        NetFault::TwoDrivers(net) => BlifFault::Net(NetFault::TwoDrivers(net)),
        NetFault::NoDriver(net) => BlifFault::Net(NetFault::NoDriver(net)),
        NetFault::Cycle(net) => BlifFault::Net(NetFault::Cycle(net)),
        NetFault::ClockFault(net) => BlifFault::Net(NetFault::ClockFault(net)),
        NetFault::NoClock => BlifFault::Net(NetFault::NoClock),
        NetFault::NoMemory => BlifFault::NoMemory,
    }
}

/// The builder of the parts that a text tells.
fn tell(
    alloc: Global,
    text: &[u8],
    library: &Library,
    options: &BlifOptions,
) -> Result<Builder, BlifFault>
    ensures { IsRead library.now options.now.clock text.now result }
{
    let reading = read_lines(alloc, text, library)?;
    let mut builder = reading.builder;
    match &options.clock {
        None => Ok(builder),
        Some(clock) => match add_clock(&mut builder, clock.bytes()) {
            Ok(()) => Ok(builder),
            Err(refusal) => Err(at_line(0, refusal)),
        },
    }
}

/// What all lines of a text tell.
fn read_lines<'a>(
    alloc: Global,
    text: &'a [u8],
    library: &Library,
) -> Result<Reading<'a>, BlifFault>
    ensures { IsReadAs (tell_lines library.now (text_lines text.entry.now)) result }
{
    let mut reading = Reading {
        place: Place::First,
        builder: Builder::new(alloc, b"top")?,
        cover: None,
    };
    match hear_lines(alloc, text, library, &mut reading) {
        Ok(()) => Ok(reading),
        Err(fault) => {
            // By a call, as its parts would else be dropped one by one in the proof.
            drop(reading);
            Err(fault)
        }
    }
}

/// Hears all lines of a text, of which nothing was heard before.
fn hear_lines<'a>(
    alloc: Global,
    text: &'a [u8],
    library: &Library,
    reading: &mut Reading<'a>,
) -> Result<(), BlifFault>
    requires at { IsAt reading.old }
    requires left { left_of library.now reading.old (text_lines text.now) ≡ tell_lines library.now (text_lines text.now) }
    ensures { IsReadAs (tell_lines library.now (text_lines text.entry.now)) (result_map_both (λ _. reading.new) (λ fault. fault) result) }
{
    let mut lines = LogicalLines::new(text);
    let mut buffers = Buffers::new(alloc);
    'lines: loop {
        match lines.next_line(&mut buffers.words) {
            Err(BlifFault::BadLine(number)) => return Err(close_at(reading, &mut buffers, number)),
            Err(_) => return Err(BlifFault::NoMemory),
            Ok(None) => break,
            Ok(Some(number)) => {
                if let Err(refusal) = read_line(alloc, library, reading, &mut buffers) {
                    return Err(at_line(number, refusal));
                }
            }
        }
    }
    let cover = reading.cover.take();
    match close(&mut reading.builder, &mut buffers.closing, cover) {
        Ok(()) => Ok(()),
        Err(refusal) => Err(at_line(0, refusal)),
    }
}

/// The fault of a text whose next line has this number, and a word that is no name: that of the open cover comes first.
fn close_at<'a>(reading: &mut Reading<'a>, buffers: &mut Buffers<'a>, number: u64) -> BlifFault
    requires { IsAt reading.old }
    ensures { ClosesAt reading.old number result }
{
    let cover = reading.cover.take();
    match close(&mut reading.builder, &mut buffers.closing, cover) {
        Ok(()) => BlifFault::BadLine(number),
        Err(refusal) => at_line(0, refusal),
    }
}

/// Reads a line of these words.
fn read_line<'a>(
    alloc: Global,
    library: &Library,
    reading: &mut Reading<'a>,
    buffers: &mut Buffers<'a>,
) -> Result<(), Refusal>
    requires at { IsAt reading.old }
    requires named { list_all is_name buffers.old.words.items ≡ true }
    ensures { Resumes library.now reading.old reading.new buffers.old.words.items result }
{
    if is_row(&buffers.words) {
        reading.read_row(buffers)
    } else {
        // The next line is likely to have as many words, where they are few.
        let room = Vec::with_capacity(alloc, buffers.words.len().min(8))?;
        let words = mem::replace(&mut buffers.words, room);
        reading.read_command(alloc, library, words, &mut buffers.closing)
    }
}

/// Room for the words of a line and for the places of a row, and what covers are closed with. What is in a list is put there by
/// whoever takes it. A command keeps the list of its words, and the next line gets a new one.
#[derive(Drop)]
struct Buffers<'a> {
    words: Vec<Word<'a>>,
    places: Vec<Option<bool>>,
    closing: Closing<'a>,
}

/// Room for the inputs of a cell, and the covers that cells share.
#[derive(Drop)]
struct Closing<'a> {
    names: Vec<&'a [u8]>,
    covers: SharedCovers,
}

impl<'a> Buffers<'a> {
    /// Empty lists; take no memory.
    fn new(alloc: Global) -> Buffers<'a> {
        Buffers {
            words: Vec::new(alloc),
            places: Vec::new(alloc),
            closing: Closing {
                names: Vec::new(alloc),
                covers: SharedCovers::new(alloc),
            },
        }
    }
}

/// What was read of a text so far: where the next line stands, the parts of all lines but an open cover, and the cover
/// of the last `.names` line, which the next line may add a row to.
#[derive(Drop)]
pub(crate) struct Reading<'a> {
    pub(crate) place: Place,
    pub(crate) builder: Builder,
    pub(crate) cover: Option<OpenCover<'a>>,
}

impl<'a> Reading<'a> {
    /// Reads a line of these words, which is no row.
    fn read_command(
        &mut self,
        alloc: Global,
        library: &Library,
        words: Vec<Word<'a>>,
        closing: &mut Closing<'a>,
    ) -> Result<(), Refusal>
        requires at { IsAt self.old }
        requires named { list_all is_name words.items ≡ true }
        requires command { are_row words.items ≡ false }
        ensures { Resumes library.now self.old self.new words.entry.items result }
    {
        let cover = self.cover.take();
        close(&mut self.builder, closing, cover)?;
        let meaning = statement_of(alloc, words)?;
        if let Some(cause) = misplaced(self.place, is_model(&meaning)) {
            return Err(Refusal::Line(cause));
        }
        match meaning {
            Err(cause) => Err(Refusal::Line(cause)),
            Ok(statement) => {
                self.place = next_place(self.place, &statement);
                self.cover = say(alloc, library, &mut self.builder, statement)?;
                Ok(())
            }
        }
    }

    /// Reads a line of the words in the buffers as a row.
    fn read_row(&mut self, buffers: &mut Buffers<'a>) -> Result<(), Refusal>
        requires at { IsAt self.old }
        requires named { list_all is_name buffers.old.words.items ≡ true }
        requires row { are_row buffers.old.words.items ≡ true }
        ensures { ResumesAt self.old self.new buffers.old.words.items result }
    {
        match self.cover.take() {
            None => Err(Refusal::Line(LineFault::BadLine)),
            Some(cover) => {
                let mut cover = cover;
                if cover.read_row(&mut buffers.places, &buffers.words)? {
                    self.cover = Some(cover);
                    return Ok(());
                }
                close(&mut self.builder, &mut buffers.closing, Some(cover))?;
                Err(Refusal::Line(LineFault::BadCover))
            }
        }
    }
}

/// Whether a line of these words is no command, and so may be a row.
fn is_row(words: &[Word<'_>]) -> bool
    ensures { result ≡ are_row words.now }
{
    match words.first() {
        None => true,
        Some(first) => first.bytes().first() != Some(&b'.'),
    }
}

/// Gives the logic cell of an open cover, where there is one, to the builder.
fn close<'a>(
    builder: &mut Builder,
    closing: &mut Closing<'a>,
    cover: Option<OpenCover<'a>>,
) -> Result<(), Refusal>
    requires { builder.old.refused ≡ None }
    ensures { Hears builder.old builder.new (closed_said builder.old.said cover.entry) result }
{
    match cover {
        None => Ok(()),
        Some(cover) => {
            let (inputs, output, cover) = cover.close(&mut closing.covers)?;
            add_cover(
                builder,
                &mut closing.names,
                inputs.as_slice(),
                &output,
                cover,
            )
        }
    }
}

/// Gives what a statement says to the builder, and opens the cover of a `.names` line.
fn say<'a>(
    alloc: Global,
    library: &Library,
    builder: &mut Builder,
    statement: Statement<'a>,
) -> Result<Option<OpenCover<'a>>, Refusal>
    requires builder { builder.old.refused ≡ None }
    requires bounds { HasBounds statement }
    requires fresh { is_model (Ok statement) ≡ true → builder.old.said ≡ nothing_said }
    ensures { TakesStatement library.now builder.old statement.entry builder.new result }
{
    match statement {
        Statement::Model(name) => {
            *builder = Builder::new(alloc, name.bytes())?;
            Ok(None)
        }
        Statement::Inputs(nets) => {
            add_inputs(builder, nets.as_slice())?;
            Ok(None)
        }
        Statement::Outputs(nets) => {
            add_outputs(builder, nets.as_slice())?;
            Ok(None)
        }
        Statement::Clocks(nets) => {
            add_clocks(builder, nets.as_slice())?;
            Ok(None)
        }
        Statement::Names(inputs, output) => Ok(Some(OpenCover::new(alloc, inputs, output))),
        Statement::Latch(input, output, clock, init) => {
            add_latch(builder, &input, &output, &clock, init)?;
            Ok(None)
        }
        Statement::Gate(cell, words) => {
            add_gate(alloc, library, builder, &cell, words.as_slice())?;
            Ok(None)
        }
        Statement::Skipped | Statement::End => Ok(None),
    }
}

/// Whether a line is a `.model` line.
fn is_model(meaning: &Result<Statement<'_>, LineFault>) -> bool
    ensures { result ≡ is_model meaning.now }
{
    matches!(meaning, Ok(Statement::Model(_)))
}

/// What is wrong where a line stands: a `.model` line is the first line, and nothing stands behind the `.end` line.
fn misplaced(place: Place, is_model: bool) -> Option<LineFault>
    ensures { result ≡ misplaced place is_model }
{
    match (place, is_model) {
        (Place::Ended | Place::Named, true) => Some(LineFault::SecondModel),
        (Place::Ended, false) | (Place::Unnamed, true) => Some(LineFault::BadLine),
        _ => None,
    }
}

/// Where the line behind a statement stands.
fn next_place(place: Place, statement: &Statement<'_>) -> Place
    ensures { result ≡ next_place place statement.now }
{
    match statement {
        Statement::End => Place::Ended,
        Statement::Model(_) => Place::Named,
        _ => match place {
            Place::First => Place::Unnamed,
            _ => place,
        },
    }
}
