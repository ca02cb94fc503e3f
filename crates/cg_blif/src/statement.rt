//! What the words of a line say that is a command: which command it is, and what the words behind it are.

ghost use Rattle.std.specs.Prelude.{◌≡◌, ◌∷◌, ◌<◌, true, length, IfOk, map};
ghost use Rattle.std.specs.List.{list_all};
ghost use Rattle.cg_blif_text.specs.Commands.{command_of, is_skipped, rarer_command};
ghost use Rattle.cg_blif_text.specs.Latches.{control_of, init_of, latch_line, latch_typed, latch_with};
ghost use Rattle.cg_blif_text.specs.Meaning.{behind, meant, names_line};
ghost use Rattle.cg_blif_text.specs.PinWords.{pin_net};
ghost use Rattle.cg_blif_text.specs.declared.statement.Command.TheVariants.{Model, Gate, End};
ghost use Rattle.cg_cell.specs.Name.{is_name};

use crate::lines::first_at;
use cg_blif_text::fault::LineFault;
use cg_blif_text::statement::{Command, Statement, Word};
use cg_limit::{Limit, MOST_COVER_INPUTS};
use cg_list::Seq;
use cg_netlist_placed::pin::PinWord;
use std::alloc::{AllocError, Global};

/// The greatest number of words behind `.names`: as many inputs as a cover may have, and an output.
const MOST_NAMES: usize = MOST_COVER_INPUTS + 1;

/// The statement of a line of these words, or what it has wrong.
pub fn statement_of<'a>(
    alloc: Global,
    words: Vec<Word<'a>>,
) -> Result<Result<Statement<'a>, LineFault>, AllocError>
    requires some { 0 < length words.items }
    requires named { list_all is_name words.items ≡ true }
    ensures { IfOk result (λ said. said ≡ meant words.entry.items) }
{
    let mut words = words;
    let first = take_first(&mut words);
    behind(alloc, command_of(first.bytes()), words)
}

/// Takes the first of some words away.
fn take_first<'a>(words: &mut Vec<Word<'a>>) -> Word<'a>
    requires { 0 < length words.old.items }
    ensures { words.old.items ≡ result ∷ words.new.items }
{
    words.remove(0)
}

/// The statement of a line of this command, with these words behind it.
fn behind<'a>(
    alloc: Global,
    command: Command,
    words: Vec<Word<'a>>,
) -> Result<Result<Statement<'a>, LineFault>, AllocError>
    ensures { IfOk result (λ said. said ≡ behind command words.entry.items) }
{
    match command {
        Command::Model => Ok(model_line(words)),
        Command::Inputs => Ok(Ok(Statement::Inputs(Seq::from_vec(words)))),
        Command::Outputs => Ok(Ok(Statement::Outputs(Seq::from_vec(words)))),
        Command::Clocks => Ok(Ok(Statement::Clocks(Seq::from_vec(words)))),
        Command::Names => Ok(names_line(words)),
        Command::Latch => Ok(latch_line(&words)),
        Command::Gate => gate_line(alloc, words),
        Command::Skipped => Ok(Ok(Statement::Skipped)),
        Command::End => Ok(end_line(words)),
        Command::Other => Ok(Err(LineFault::BadLine)),
    }
}

/// The `.model` line of these words.
fn model_line<'a>(words: Vec<Word<'a>>) -> Result<Statement<'a>, LineFault>
    ensures { result ≡ behind Model words.entry.items }
{
    match words.as_slice() {
        [name] => Ok(Statement::Model(Word::new(name.bytes()))),
        _ => Err(LineFault::BadLine),
    }
}

/// The `.names` line of these words.
fn names_line<'a>(words: Vec<Word<'a>>) -> Result<Statement<'a>, LineFault>
    ensures { result ≡ names_line words.entry.items }
{
    if words.len() > MOST_NAMES {
        return Err(LineFault::Limit(Limit::CoverInputs));
    }
    let mut inputs = words;
    match inputs.pop() {
        None => Err(LineFault::BadLine),
        Some(output) => Ok(Statement::Names(Seq::from_vec(inputs), output)),
    }
}

/// The `.gate` line of these words.
fn gate_line<'a>(
    alloc: Global,
    words: Vec<Word<'a>>,
) -> Result<Result<Statement<'a>, LineFault>, AllocError>
    ensures { IfOk result (λ said. said ≡ behind Gate words.entry.items) }
{
    match words.as_slice() {
        [] => Ok(Err(LineFault::BadLine)),
        [cell, pins @ ..] => {
            let pins = pin_nets(alloc, pins)?;
            Ok(Ok(Statement::Gate(Word::new(cell.bytes()), Seq::from_vec(pins))))
        }
    }
}

/// The `.end` line of these words.
fn end_line<'a>(words: Vec<Word<'a>>) -> Result<Statement<'a>, LineFault>
    ensures { result ≡ behind End words.entry.items }
{
    if words.is_empty() {
        Ok(Statement::End)
    } else {
        Err(LineFault::BadLine)
    }
}

/// The command of a line with this first word.
fn command_of(word: &[u8]) -> Command
    ensures { result ≡ command_of word.now }
{
    if word == b".names".as_slice() {
        Command::Names
    } else if word == b".gate".as_slice() {
        Command::Gate
    } else if word == b".latch".as_slice() {
        Command::Latch
    } else {
        rarer_command(word)
    }
}

/// The command of a word that is none of the frequent ones.
fn rarer_command(word: &[u8]) -> Command
    ensures { result ≡ rarer_command word.now }
{
    if word == b".model".as_slice() {
        Command::Model
    } else if word == b".inputs".as_slice() {
        Command::Inputs
    } else if word == b".outputs".as_slice() {
        Command::Outputs
    } else if word == b".clock".as_slice() {
        Command::Clocks
    } else if word == b".end".as_slice() {
        Command::End
    } else if is_skipped(word) {
        Command::Skipped
    } else {
        Command::Other
    }
}

/// Whether the word is a command whose lines are skipped.
fn is_skipped(word: &[u8]) -> bool
    ensures { result ≡ is_skipped word.now }
{
    word == b".cname".as_slice() || word == b".attr".as_slice() || word == b".param".as_slice()
}

/// The register that these words behind `.latch` say.
fn latch_line<'a>(words: &[Word<'a>]) -> Result<Statement<'a>, LineFault>
    ensures { result ≡ latch_line words.now }
{
    match words {
        [input, output] => latch_with(input, output, None, Some(3)),
        [input, output, init] => latch_with(input, output, None, init_of(init.bytes())),
        [input, output, kind, control] => latch_typed(input, output, kind, control, Some(3)),
        [input, output, kind, control, init] => {
            latch_typed(input, output, kind, control, init_of(init.bytes()))
        }
        _ => Err(LineFault::BadLatch),
    }
}

/// A register of this type, on this clock.
fn latch_typed<'a>(
    input: &Word<'a>,
    output: &Word<'a>,
    kind: &Word<'a>,
    control: &Word<'a>,
    init: Option<u8>,
) -> Result<Statement<'a>, LineFault>
    ensures { result ≡ latch_typed input.now output.now kind.now control.now init }
{
    if kind.bytes() != b"re".as_slice() {
        return Err(LineFault::BadLatch);
    }
    latch_with(input, output, control_of(control), init)
}

/// A register on this clock, or on the one global clock, where there is an init.
fn latch_with<'a>(
    input: &Word<'a>,
    output: &Word<'a>,
    clock: Option<Word<'a>>,
    init: Option<u8>,
) -> Result<Statement<'a>, LineFault>
    ensures { result ≡ latch_with input.now output.now clock.entry init }
{
    match init {
        None => Err(LineFault::BadLatch),
        Some(init) => Ok(Statement::Latch(
            Word::new(input.bytes()),
            Word::new(output.bytes()),
            clock,
            init,
        )),
    }
}

/// The clock that a word says: `NIL` is the one global clock.
fn control_of<'a>(control: &Word<'a>) -> Option<Word<'a>>
    ensures { result ≡ control_of control.now }
{
    if control.bytes() == b"NIL".as_slice() {
        None
    } else {
        Some(Word::new(control.bytes()))
    }
}

/// The init that a word says: one digit from 0 to 3.
fn init_of(word: &[u8]) -> Option<u8>
    ensures { result ≡ init_of word.now }
{
    if word.len() == 1 && b'0' <= word[0] && word[0] <= b'3' {
        Some(word[0] - b'0')
    } else {
        None
    }
}

/// These words as pins with nets.
fn pin_nets<'a>(alloc: Global, words: &[Word<'a>]) -> Result<Vec<PinWord<'a>>, AllocError>
    ensures { IfOk result (λ pins. pins.items ≡ map pin_net words.now) }
{
    let mut pins = Vec::with_capacity(alloc, words.len())?;
    'words: for word in words {
        pins.push(pin_net(word.bytes()))?;
    }
    Ok(pins)
}

/// A word as a pin and the net behind the first `=`.
fn pin_net<'a>(word: &'a [u8]) -> PinWord<'a>
    ensures { result ≡ pin_net word.entry.now }
{
    let at = first_at(word, b'=');
    if at == word.len() {
        return PinWord {
            pin: word,
            net: None,
        };
    }
    PinWord {
        pin: &word[..at],
        net: Some(&word[at + 1..]),
    }
}
