//! Registers: an `ff` group with a next state, a clock and outputs that give the state or its inverse.

ghost use Rattle.std.specs.Prelude.{◌≡◌, ◌+◌, ◌≤◌, ◌<◌, ◌++◌, ◌==◌, ◌&&◌, ◌||◌, ℕ, List, IfOk, IfSome, IsTrue, Ok, OnOk, Some};
ghost use Rattle.std.specs.Prelude.{count_by, length, not, option_map, true};
ghost use Rattle.std.specs.List.{list_any};
ghost use Rattle.std.specs.Str.{bytes_eq};
ghost use Rattle.cg_limit.specs.Answers.{OrNoMemory};
ghost use Rattle.cg_cell.specs.Expr.{is_over, term_of};
ghost use Rattle.cg_cell.specs.Name.{are_distinct, is_name};
ghost use Rattle.cg_cell.specs.Pins.{is_state};
ghost use Rattle.cg_cell.specs.Term.{is_within};
ghost use Rattle.cg_liberty_group.specs.Group.{is_there};
ghost use Rattle.cg_liberty.specs.declared.fault.CellFault.TheVariants.{NoMemory};
ghost use Rattle.cg_liberty.specs.Kinds.{all_known, are_flop_pins, flop_cell, flop_of, flop_pins, flop_with_parts, input_names};
ghost use Rattle.cg_liberty.specs.Kinds.{inverse_by};
ghost use Rattle.cg_liberty.specs.Kinds.{inverses_read, is_inverse, is_plain_flop, output_role, output_texts, rest_of, restated};
ghost use Rattle.cg_liberty.specs.Kinds.{state_names};
ghost use Rattle.cg_liberty.specs.Port.{ArePorts};
ghost use Rattle.cg_liberty.specs.Reading.{then_read};
ghost use Rattle.cg_liberty.specs.inner.Parts.{parts_of, parts_read};

use crate::checked::checked_cell_of;
use crate::expression::read_stated;
use crate::fault::CellFault;
use crate::gater::clocks_among;
use crate::logic::{input_names_of, unusable_cell};
use crate::port::Port;
use crate::restate::{Numbering, restate};
use cg_cell::cell::{CellKind, CellType, Pin, Role};
use cg_cell::expr::Expr;
use cg_cell::name::Name;
use cg_liberty_group::group::FlopGroup;
use cg_liberty_text::argument::Arguments;
use cg_list::Seq;
use std::alloc::{AllocError, Global};

/// What is read of a register before its cell is made.
#[derive(Drop)]
struct FlopParts {
    /// Whether it has two states of names of their own, and no other way to be set than by its clock.
    plain: bool,

    /// Its next state, where that is over the names.
    next: Option<Expr>,

    /// What its clock is, where that is over the inputs.
    clocked: Option<Expr>,

    /// Of each output whether it gives the inverse of the state, where each gives the state or the inverse.
    known: Option<Vec<bool>>,

    /// How many inputs there are.
    inputs: u32,

    /// How many names a next state may have.
    names: usize,
}

/// Puts the arguments that are names behind the other names.
fn push_states(
    alloc: Global,
    names: &mut Seq<Name>,
    texts: &Arguments<'_>,
) -> Result<(), AllocError>
    ensures { OnOk result (names.new ≡ names.old ++ state_names texts.now) }
{
    let mut left = texts.again();
    'texts: while let Some(text) = left.next() {
        let bytes = text.bytes(alloc)?;
        if !Name::is_name(&bytes) {
            continue;
        }
        let name = Name::new(alloc, &bytes)?;
        names.push(name)?;
    }
    Ok(())
}

/// Whether an output function of a state and its inverse gives the inverse.
fn inverse_of(function: Option<Expr>, states: usize) -> Option<bool>
    requires { IfSome function (λ e. IsTrue (is_over states e)) }
    ensures { result ≡ is_inverse states (option_map term_of function) }
{
    let function = function?;
    if states != 2 {
        return None;
    }
    inverse_from(
        function.value(&[true, false]),
        function.value(&[false, true]),
    )
}

/// Whether a function gives the inverse, by its values where the state is 1 and where it is 0.
fn inverse_from(set: bool, clear: bool) -> Option<bool>
    ensures { result ≡ inverse_by set clear }
{
    if set == clear { None } else { Some(clear) }
}

/// What an output is for, by whether it gives the inverse of the state.
fn role_of_output(inverses: &[bool]) -> Role
    ensures { result ≡ output_role inverses.now }
{
    match inverses {
        [] => Role::State,
        [inverse, ..] => {
            if *inverse {
                Role::StateBar
            } else {
                Role::State
            }
        }
    }
}

/// The outputs behind the first.
fn behind_first(inverses: &[bool]) -> &[bool]
    ensures { result.now ≡ rest_of inverses.entry.now }
{
    match inverses {
        [] => inverses,
        [_, rest @ ..] => rest,
    }
}

/// The pins of a register whose clock is that input.
fn flop_pins_of(
    alloc: Global,
    ports: &[Port<'_>],
    clock: usize,
    inverses: &[bool],
) -> Result<Vec<Pin>, AllocError>
    ensures { IfOk result (λ pins. pins.items ≡ flop_pins clock 0 inverses.now ports.now) }
{
    let mut pins = Vec::new(alloc);
    let mut k: usize = 0;
    let mut left = inverses;
    'ports: for port in ports {
        let name = port.name.clone()?;
        if port.marks.is_output {
            pins.push(Pin::new(name, role_of_output(left)))?;
            left = behind_first(left);
            continue;
        }
        let role = if k == clock { Role::Clock } else { Role::Data };
        pins.push(Pin::new(name, role))?;
        k += 1;
    }
    Ok(pins)
}

/// Reads the functions of the output pins over the states' names; answers for each whether it gives
/// the inverse of the state.
fn read_inverses(
    alloc: Global,
    ports: &[Port<'_>],
    states: &[Name],
) -> Result<Seq<Option<bool>>, CellFault>
    ensures { OrNoMemory NoMemory (λ inverses. inverses) result (inverses_read states.now (output_texts ports.now)) }
{
    let mut inverses = Seq::new(alloc);
    'ports: for port in ports {
        if !port.marks.is_output {
            continue;
        }
        let function = read_stated(alloc, &port.marks.function, states)?;
        inverses.push(inverse_of(function, states.len()))?;
    }
    Ok(inverses)
}

/// Each output with whether it gives the inverse, where each gives the state or the inverse.
fn all_known_of(alloc: Global, outputs: &[Option<bool>]) -> Result<Option<Vec<bool>>, AllocError>
    ensures { IfOk result (λ known. option_map (λ known. known.items) known ≡ all_known outputs.now) }
{
    let mut known = Vec::new(alloc);
    'outputs: for output in outputs {
        match output {
            Some(inverse) => known.push(*inverse)?,
            None => return Ok(None),
        }
    }
    Ok(Some(known))
}

/// Whether some of the names is this one.
pub fn is_name_taken(names: &[Name], name: &[u8]) -> bool
    ensures { result ≡ list_any (bytes_eq name.now) names.now }
{
    'names: for other in names {
        if name == other.bytes() {
            return true;
        }
    }
    false
}

/// Whether no two of the names are equal.
fn are_names_apart(names: &[Name]) -> bool
    ensures { result ≡ are_distinct names.now }
{
    'names: for (i, name) in names.iter().enumerate() {
        if is_name_taken(&names[i + 1..], name.bytes()) {
            return false;
        }
    }
    true
}

/// Whether there are exactly two arguments.
fn are_two(texts: &Arguments<'_>) -> bool
    ensures { result ≡ (length texts.now == 2) }
{
    let mut left = texts.again();
    left.next().is_some() && left.next().is_some() && left.next().is_none()
}

/// Whether a register can be set in another way than by its clock.
fn has_other_sets(flop: &FlopGroup<'_>) -> bool
    ensures { result ≡ (is_there flop.now.clear || (is_there flop.now.preset || is_there flop.now.clocked_on_also)) }
{
    flop.clear.is_there() || flop.preset.is_there() || flop.clocked_on_also.is_there()
}

/// Whether an `ff` group, by all but the names, may be that of a usable register.
fn can_be_plain(flop: &FlopGroup<'_>) -> bool
    ensures { result ≡ (length flop.now.names == 2 && not (is_there flop.now.clear || (is_there flop.now.preset || is_there flop.now.clocked_on_also))) }
{
    are_two(&flop.names) && !has_other_sets(flop)
}

/// Whether a register has two states of names of their own, and no other way to be set than by its
/// clock; `names` are those of the inputs and behind them those of the states.
fn is_plain(flop: &FlopGroup<'_>, states: &[Name], names: &[Name]) -> bool
    requires { states.now ≡ state_names flop.now.names }
    ensures plain { (inputs : List (List ℕ)) → names.now ≡ inputs ++ states.now → result ≡ is_plain_flop inputs flop.now }
    ensures two { result ≡ true → length states.now ≡ 2 }
{
    are_two(&flop.names) && states.len() == 2 && are_names_apart(names) && !has_other_sets(flop)
}

/// How many of the pins give the state or its inverse.
fn states_among(pins: &[Pin]) -> usize
    ensures { result ≡ count_by is_state pins.now }
{
    pins.iter().filter(|pin| pin.is_state()).count()
}

/// Whether these can be the pins of a register.
fn are_pins_of_flop(pins: &[Pin]) -> bool
    ensures { result ≡ are_flop_pins pins.now }
{
    clocks_among(pins) == 1 && 1 <= states_among(pins)
}

/// What a register's cell is made of, where all of it was read.
#[derive(Clone, Copy)]
struct FlopRead<'a, 't> {
    ports: &'a [Port<'t>],

    /// How many of the ports are inputs, and which input is the clock.
    numbering: Numbering,

    /// Of each output whether it gives the inverse of the state.
    inverses: &'a [bool],

    next: &'a Expr,
}

/// The register of these pins, with its function.
fn make_flop(
    name: Name,
    read: &FlopRead<'_, '_>,
    pins: Vec<Pin>,
    function: Expr,
) -> Result<CellType, AllocError>
    requires named { IsTrue (is_name name) }
    requires ports { ArePorts read.now.ports.now }
    requires pins { pins.items ≡ flop_pins read.now.numbering.clock 0 read.now.inverses.now read.now.ports.now }
    requires fit { are_flop_pins pins.items ≡ true }
    requires inputs { read.now.numbering.inputs ≡ length (input_names read.now.ports.now) }
    requires clock { read.now.numbering.clock < read.now.numbering.inputs }
    requires within { IsTrue (is_within (read.now.numbering.inputs + 2) (term_of read.now.next.now)) }
    requires function { term_of function ≡ restated read.now.numbering.inputs read.now.numbering.clock (term_of read.now.next.now) }
    ensures { IfOk result (λ cell. cell ≡ record { name = name; kind = CellKind.Flop; pins = pins.items; function = Some (term_of function) }) }
{
    CellType::new(name, CellKind::Flop, pins, Some(function))
}

/// The register with a next state, a clock and outputs that were all read, or an unusable cell.
fn flop_with(alloc: Global, name: Name, read: &FlopRead<'_, '_>) -> Result<CellType, AllocError>
    requires named { IsTrue (is_name name) }
    requires ports { ArePorts read.now.ports.now }
    requires inputs { read.now.numbering.inputs ≡ length (input_names read.now.ports.now) }
    requires few { read.now.numbering.inputs ≤ 16 }
    requires clock { read.now.numbering.clock < read.now.numbering.inputs }
    requires within { IsTrue (is_within (read.now.numbering.inputs + 2) (term_of read.now.next.now)) }
    ensures { IfOk result
        (λ cell. cell ≡ flop_with_parts name read.now.ports.now (term_of read.now.next.now) read.now.numbering.clock read.now.inverses.now) }
{
    let numbering = read.numbering;
    if read.next.names(numbering.clock) {
        return unusable_cell(alloc, name);
    }
    let pins = flop_pins_of(alloc, read.ports, numbering.clock as usize, read.inverses)?;
    if !are_pins_of_flop(&pins) {
        return unusable_cell(alloc, name);
    }
    let function = restate(alloc, read.next, numbering)?;
    make_flop(name, read, pins, function)
}

/// The register of these parts where all of them are there, or an unusable cell.
#[tactic(auto, using(crate::proofs::FlopCells::lone_below))]
fn flop_of_parts(
    alloc: Global,
    name: Name,
    ports: &[Port<'_>],
    parts: &FlopParts,
) -> Result<CellType, AllocError>
    requires named { IsTrue (is_name name) }
    requires ports { ArePorts ports.now }
    requires inputs { parts.now.inputs ≡ length (input_names ports.now) }
    requires few { parts.now.inputs ≤ 16 }
    requires two { parts.now.plain ≡ true → parts.now.names ≡ parts.now.inputs + 2 }
    requires next { IfSome parts.now.next (λ e. IsTrue (is_within parts.now.names (term_of e))) }
    requires clocked { IfSome parts.now.clocked (λ e. IsTrue (is_within parts.now.inputs (term_of e))) }
    ensures { IfOk result
        (λ cell. cell ≡ flop_of name ports.now parts.now.plain (parts_of parts.now).next (parts_of parts.now).clocked (parts_of parts.now).known) }
{
    let Some(next) = &parts.next else {
        return unusable_cell(alloc, name);
    };
    let Some(clocked) = &parts.clocked else {
        return unusable_cell(alloc, name);
    };
    let Some(known) = &parts.known else {
        return unusable_cell(alloc, name);
    };
    if !parts.plain {
        return unusable_cell(alloc, name);
    }
    let Some(clock) = clocked.only() else {
        return unusable_cell(alloc, name);
    };
    let read = FlopRead {
        ports,
        numbering: Numbering {
            inputs: parts.inputs,
            clock,
        },
        inverses: known,
        next,
    };
    flop_with(alloc, name, &read)
}

/// Of each output whether it gives the inverse of the state, where each gives the state or the inverse.
fn known_of(
    alloc: Global,
    ports: &[Port<'_>],
    states: &[Name],
) -> Result<Option<Vec<bool>>, CellFault>
    ensures { OrNoMemory NoMemory (λ known. option_map (λ known. known.items) known) result
        (then_read (inverses_read states.now (output_texts ports.now)) (λ found. Ok (all_known found))) }
{
    let inverses = read_inverses(alloc, ports, states)?;
    Ok(all_known_of(alloc, inverses.as_slice())?)
}

/// Reads the parts of a register over the names of the inputs, of the states and of both.
#[tactic(auto, using(crate::proofs::FlopCells::few_inputs))]
fn read_parts(
    alloc: Global,
    ports: &[Port<'_>],
    flop: &FlopGroup<'_>,
    inputs: &[Name],
    states: &[Name],
    names: &[Name],
) -> Result<FlopParts, CellFault>
    requires ports { ArePorts ports.now }
    requires inputs { inputs.now ≡ input_names ports.now }
    requires states { states.now ≡ state_names flop.now.names }
    requires names { names.now ≡ input_names ports.now ++ state_names flop.now.names }
    ensures read { OrNoMemory NoMemory parts_of result (parts_read (input_names ports.now) (output_texts ports.now) flop.now) }
    ensures plain { IfOk result (λ parts. parts.plain ≡ is_plain_flop (input_names ports.now) flop.now) }
    ensures inputs { IfOk result (λ parts. parts.inputs ≡ length (input_names ports.now)) }
    ensures few { IfOk result (λ parts. parts.inputs ≤ 16) }
    ensures two { IfOk result (λ parts. parts.plain ≡ true → parts.names ≡ parts.inputs + 2) }
    ensures next { IfOk result (λ parts. IfSome parts.next (λ e. IsTrue (is_within parts.names (term_of e)))) }
    ensures clocked { IfOk result (λ parts. IfSome parts.clocked (λ e. IsTrue (is_within parts.inputs (term_of e)))) }
{
    let next = read_stated(alloc, &flop.next_state.text(), names)?;
    let clocked = read_stated(alloc, &flop.clocked_on.text(), inputs)?;
    let known = known_of(alloc, ports, states)?;
    Ok(FlopParts {
        plain: is_plain(flop, states, names),
        next,
        clocked,
        known,
        inputs: inputs.len() as u32,
        names: names.len(),
    })
}

/// The names of the inputs, and behind them those of the states.
fn all_names_of(
    alloc: Global,
    ports: &[Port<'_>],
    texts: &Arguments<'_>,
) -> Result<Seq<Name>, AllocError>
    ensures { IfOk result (λ names. names ≡ input_names ports.now ++ state_names texts.now) }
{
    let mut names = input_names_of(alloc, ports)?;
    push_states(alloc, &mut names, texts)?;
    Ok(names)
}

/// Reads the parts of a register over the names of the inputs and of the states.
fn parts_over(
    alloc: Global,
    ports: &[Port<'_>],
    flop: &FlopGroup<'_>,
    inputs: &[Name],
    states: &[Name],
) -> Result<FlopParts, CellFault>
    requires ports { ArePorts ports.now }
    requires inputs { inputs.now ≡ input_names ports.now }
    requires states { states.now ≡ state_names flop.now.names }
    ensures read { OrNoMemory NoMemory parts_of result (parts_read (input_names ports.now) (output_texts ports.now) flop.now) }
    ensures plain { IfOk result (λ parts. parts.plain ≡ is_plain_flop (input_names ports.now) flop.now) }
    ensures inputs { IfOk result (λ parts. parts.inputs ≡ length (input_names ports.now)) }
    ensures few { IfOk result (λ parts. parts.inputs ≤ 16) }
    ensures two { IfOk result (λ parts. parts.plain ≡ true → parts.names ≡ parts.inputs + 2) }
    ensures next { IfOk result (λ parts. IfSome parts.next (λ e. IsTrue (is_within parts.names (term_of e)))) }
    ensures clocked { IfOk result (λ parts. IfSome parts.clocked (λ e. IsTrue (is_within parts.inputs (term_of e)))) }
{
    let names = all_names_of(alloc, ports, &flop.names)?;
    read_parts(alloc, ports, flop, inputs, states, names.as_slice())
}

/// Reads the parts of a register.
fn flop_parts_of(
    alloc: Global,
    ports: &[Port<'_>],
    flop: &FlopGroup<'_>,
) -> Result<FlopParts, CellFault>
    requires ports { ArePorts ports.now }
    ensures read { OrNoMemory NoMemory parts_of result (parts_read (input_names ports.now) (output_texts ports.now) flop.now) }
    ensures plain { IfOk result (λ parts. parts.plain ≡ is_plain_flop (input_names ports.now) flop.now) }
    ensures inputs { IfOk result (λ parts. parts.inputs ≡ length (input_names ports.now)) }
    ensures few { IfOk result (λ parts. parts.inputs ≤ 16) }
    ensures two { IfOk result (λ parts. parts.plain ≡ true → parts.names ≡ parts.inputs + 2) }
    ensures next { IfOk result (λ parts. IfSome parts.next (λ e. IsTrue (is_within parts.names (term_of e)))) }
    ensures clocked { IfOk result (λ parts. IfSome parts.clocked (λ e. IsTrue (is_within parts.inputs (term_of e)))) }
{
    let inputs = input_names_of(alloc, ports)?;
    let mut states = Seq::new(alloc);
    push_states(alloc, &mut states, &flop.names)?;
    parts_over(alloc, ports, flop, inputs.as_slice(), states.as_slice())
}

/// The register of these pins, or an unusable cell, from expressions that are read in full.
#[tactic(auto, using(crate::proofs::FlopCells::cell_by_parts))]
fn read_cell_of(
    alloc: Global,
    name: Name,
    ports: &[Port<'_>],
    flop: &FlopGroup<'_>,
) -> Result<CellType, CellFault>
    requires named { IsTrue (is_name name) }
    requires ports { ArePorts ports.now }
    ensures { OrNoMemory NoMemory (λ cell. cell) result (flop_cell name ports.now flop.now) }
{
    let parts = flop_parts_of(alloc, ports, flop)?;
    Ok(flop_of_parts(alloc, name, ports, &parts)?)
}

/// The register of these pins, or an unusable cell. Where it cannot be usable, nothing is kept of its expressions.
#[tactic(auto, using(crate::proofs::FaultsAlone::cannot_be_plain))]
pub fn flop_cell_of(
    alloc: Global,
    name: Name,
    ports: &[Port<'_>],
    flop: &FlopGroup<'_>,
) -> Result<CellType, CellFault>
    requires named { IsTrue (is_name name) }
    requires ports { ArePorts ports.now }
    ensures { OrNoMemory NoMemory (λ cell. cell) result (flop_cell name ports.now flop.now) }
{
    if can_be_plain(flop) {
        read_cell_of(alloc, name, ports, flop)
    } else {
        checked_cell_of(alloc, name, ports, flop)
    }
}
