//! The groups of a cell, read statement by statement.

ghost use Rattle.std.specs.Prelude.{◌≡◌, ◌≤◌, length, Some, MatchResult, OnOk};
ghost use Rattle.cg_liberty_group.specs.Cell.{GivesUp, cell_from, cell_with_flop, cell_with_group, cell_with_pin, new_cell};
ghost use Rattle.cg_liberty_group.specs.Group.{IsLeft, flop_from, new_flop, new_pin, pin_from};

use crate::fault::ReadFault;
use crate::group::{CellGroup, FlopGroup, PinGroup};
use cg_liberty_text::argument::Arguments;
use cg_liberty_text::fault::TextFault;
use cg_liberty_text::statement::Statement;
use cg_liberty_text::statements::Statements;
use cg_liberty_text::text::Text;
use std::alloc::Global;

/// Passes over the rest of a group, with its `}`. It calls itself no deeper than groups nest.
///
/// Errs with the first fault of what is left of the text.
#[tactic(auto, using(crate::proofs::Inside::behind_inside))]
pub fn pass_group(statements: &mut Statements<'_>) -> Result<(), TextFault>
    ensures left { MatchResult result (λ _. IsLeft statements.old statements.new) (λ fault. statements.old.1 ≡ Some fault) }
    ensures shorter { OnOk result (length statements.new.0 ≤ length statements.old.0) }
{
    'statements: while let Some(statement) = statements.next()? {
        match statement {
            Statement::Open(_, _) => pass_group(statements)?,
            Statement::Close => return Ok(()),
            Statement::Attribute(_, _) => {}
        }
    }
    Ok(())
}

/// Reads the rest of a `pin` group, and takes note of its attributes.
#[tactic(auto, using(crate::proofs::Inside::behind_inside, crate::proofs::Inside::pin_inside))]
fn read_pin<'a>(statements: &mut Statements<'a>, pin: &mut PinGroup<'a>) -> Result<(), TextFault>
    ensures pin { MatchResult result (λ _. (pin.new ≡ pin_from 0 pin.old statements.old.0) × IsLeft statements.old statements.new)
        (λ fault. statements.old.1 ≡ Some fault) }
    ensures shorter { OnOk result (length statements.new.0 ≤ length statements.old.0) }
{
    'statements: while let Some(statement) = statements.next()? {
        match statement {
            Statement::Open(_, _) => pass_group(statements)?,
            Statement::Close => return Ok(()),
            Statement::Attribute(word, text) => pin.note(&word, text),
        }
    }
    Ok(())
}

/// Reads the rest of an `ff` group, and takes note of its attributes.
#[tactic(auto, using(crate::proofs::Inside::behind_inside, crate::proofs::Inside::flop_inside))]
fn read_flop<'a>(statements: &mut Statements<'a>, flop: &mut FlopGroup<'a>) -> Result<(), TextFault>
    ensures flop { MatchResult result (λ _. (flop.new ≡ flop_from 0 flop.old statements.old.0) × IsLeft statements.old statements.new)
        (λ fault. statements.old.1 ≡ Some fault) }
    ensures shorter { OnOk result (length statements.new.0 ≤ length statements.old.0) }
{
    'statements: while let Some(statement) = statements.next()? {
        match statement {
            Statement::Open(_, _) => pass_group(statements)?,
            Statement::Close => return Ok(()),
            Statement::Attribute(word, text) => flop.note(&word, text),
        }
    }
    Ok(())
}

/// Reads the rest of a `pin` group of a cell that describes these pins.
fn take_pin<'a>(
    statements: &mut Statements<'a>,
    cell: &mut CellGroup<'a>,
    names: Arguments<'a>,
) -> Result<(), ReadFault>
    ensures pin { MatchResult result
        (λ _. (cell.new ≡ cell_with_pin cell.old (pin_from 0 (new_pin names.entry) statements.old.0)) × IsLeft statements.old statements.new)
        (GivesUp statements.old) }
    ensures shorter { OnOk result (length statements.new.0 ≤ length statements.old.0) }
{
    let mut pin = PinGroup::new(names);
    read_pin(statements, &mut pin)?;
    Ok(cell.note_pin(&pin)?)
}

/// Reads the rest of an `ff` group of a cell with these arguments.
fn take_flop<'a>(
    statements: &mut Statements<'a>,
    cell: &mut CellGroup<'a>,
    names: Arguments<'a>,
) -> Result<(), TextFault>
    ensures flop { MatchResult result
        (λ _. (cell.new ≡ cell_with_flop cell.old (flop_from 0 (new_flop names.entry) statements.old.0)) × IsLeft statements.old statements.new)
        (λ fault. statements.old.1 ≡ Some fault) }
    ensures shorter { OnOk result (length statements.new.0 ≤ length statements.old.0) }
{
    let mut flop = FlopGroup::new(names);
    read_flop(statements, &mut flop)?;
    cell.note_flop(flop);
    Ok(())
}

/// Reads the rest of a group that stands in a cell, and takes note of it.
#[tactic(auto, using(crate::proofs::Inside::behind_inside))]
fn read_group<'a>(
    statements: &mut Statements<'a>,
    cell: &mut CellGroup<'a>,
    word: &Text<'_>,
    arguments: Arguments<'a>,
) -> Result<(), ReadFault>
    ensures cell { MatchResult result
        (λ _. (cell.new ≡ cell_with_group cell.old word.now arguments.entry statements.old.0) × IsLeft statements.old statements.new) (GivesUp statements.old) }
    ensures shorter { OnOk result (length statements.new.0 ≤ length statements.old.0) }
{
    if word.is(b"pin") {
        take_pin(statements, cell, arguments)?;
    } else if word.is(b"ff") {
        take_flop(statements, cell, arguments)?;
    } else {
        cell.note_group(word);
        pass_group(statements)?;
    }
    Ok(())
}

/// Reads the rest of a `cell` group, and takes note of what stands in it.
#[tactic(auto, using(crate::proofs::Inside::behind_inside, crate::proofs::Inside::cell_inside))]
fn fill_cell<'a>(statements: &mut Statements<'a>, cell: &mut CellGroup<'a>) -> Result<(), ReadFault>
    ensures cell { MatchResult result (λ _. (cell.new ≡ cell_from 0 cell.old statements.old.0) × IsLeft statements.old statements.new)
        (GivesUp statements.old) }
    ensures shorter { OnOk result (length statements.new.0 ≤ length statements.old.0) }
{
    'statements: while let Some(statement) = statements.next()? {
        match statement {
            Statement::Open(word, arguments) => read_group(statements, cell, &word, arguments)?,
            Statement::Close => return Ok(()),
            Statement::Attribute(word, text) => cell.note(&word, text),
        }
    }
    Ok(())
}

/// Reads the rest of a `cell` group of this name, with its `}`.
///
/// Errs with the first fault of what is left of the text, and where there is not enough memory. That there are more pins
/// than a usable cell has, or several `ff` groups, is no fault.
pub fn read_cell<'a>(
    alloc: Global,
    statements: &mut Statements<'a>,
    name: Text<'a>,
) -> Result<CellGroup<'a>, ReadFault>
    ensures cell { MatchResult result (λ cell. (cell ≡ cell_from 0 (new_cell name.entry) statements.old.0) × IsLeft statements.old statements.new)
        (GivesUp statements.old) }
    ensures shorter { OnOk result (length statements.new.0 ≤ length statements.old.0) }
{
    let mut cell = CellGroup::new(alloc, name);
    fill_cell(statements, &mut cell)?;
    Ok(cell)
}
