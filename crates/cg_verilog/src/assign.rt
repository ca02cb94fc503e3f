//! An assignment, told to a builder.

ghost use Rattle.std.specs.Prelude.{◌≡◌, ◌<◌, ◌≤◌, ◌∷◌, [], None, IfOk, IsTrue, length, map, nat_lt};
ghost use Rattle.std.specs.List.{AllByRecursion};
ghost use Rattle.std.specs.Str.{bytes_eq};
ghost use Rattle.cg_cell.specs.Cover.{CoverFits};
ghost use Rattle.cg_cell.specs.Name.{is_name};
ghost use Rattle.cg_limit.specs.declared.TheConstants.{MOST_COVER_INPUTS};
ghost use Rattle.cg_netlist.specs.declared.parts.LogicFunction.TheVariants.{Cover as CoverFunction};
ghost use Rattle.cg_netlist_builder.specs.Calls.{cell_of};
ghost use Rattle.cg_netlist_parts.specs.Part.{Logic as LogicPart};
ghost use Rattle.cg_verilog_text.specs.Forms.{nets_of};
ghost use Rattle.cg_verilog_text.specs.Meaning.{cover_part, form_cell, once};
ghost use Rattle.cg_verilog_text.specs.Telling.{with_parts};
ghost use Rattle.cg_verilog.specs.Hearing.{Hears, HearsItem, heard};

use crate::cover::{CoverMaker, inputs_of, rows_of};
use crate::inputs::{InputNames, Inputs};
use crate::refusal::{Refusal, heard};
use cg_cell::cover::Cover;
use cg_limit::{Limit, MOST_COVER_INPUTS};
use cg_net::names::NetNames;
use cg_netlist::fault::AddFault;
use cg_netlist_builder::builder::Builder;
use cg_verilog_expression::form::Form;
use cg_verilog_expression::net::Net;
use cg_verilog_text::fault::ItemFault;
use std::alloc::{AllocError, Global};

/// Tells a builder that a net is a form.
pub fn assign(
    alloc: Global,
    maker: &mut CoverMaker,
    builder: &mut Builder,
    output: &Net<'_>,
    form: Form<'_>,
) -> Result<(), Refusal>
    requires { builder.old.refused ≡ None }
    ensures { HearsItem builder.old builder.new (cover_part (form_cell bytes_eq output.now form.entry)) result }
{
    let on = form.on();
    let terms = form.into_terms(alloc)?;
    let inputs = inputs_of(alloc, terms.as_slice())?;
    if inputs.len() > MOST_COVER_INPUTS {
        return Err(Refusal::Item(ItemFault::Limit(Limit::CoverInputs)));
    }
    let rows = rows_of(alloc, &mut maker.row, &inputs, terms.as_slice())?;
    let cover = maker.covers.cover(rows, on)?;
    heard(tell_cover(alloc, builder, &inputs, output, cover))
}

/// Tells a builder that a net is a cover of these inputs.
fn tell_cover(
    alloc: Global,
    builder: &mut Builder,
    inputs: &Inputs<'_>,
    output: &Net<'_>,
    cover: Cover,
) -> Result<(), AddFault>
    requires fine { builder.old.refused ≡ None }
    requires few { length inputs.now ≤ MOST_COVER_INPUTS }
    requires named { AllByRecursion (λ name. IsTrue (is_name name)) inputs.now }
    requires fits { CoverFits (length inputs.now) cover }
    ensures { Hears builder.old builder.new (with_parts (LogicPart (cell_of inputs.now output.now (CoverFunction cover)) ∷ []) builder.old.said) result }
{
    match inputs.names() {
        InputNames::Few(names) => tell_names(builder, names, output, cover),
        InputNames::Many(names) => {
            let names = lent(alloc, names)?;
            tell_names(builder, &names, output, cover)
        }
    }
}

/// Tells a builder that a net is a cover of inputs of these names.
fn tell_names(
    builder: &mut Builder,
    names: &[&[u8]],
    output: &Net<'_>,
    cover: Cover,
) -> Result<(), AddFault>
    requires fine { builder.old.refused ≡ None }
    requires few { length names.now ≤ MOST_COVER_INPUTS }
    requires named { AllByRecursion (λ name. IsTrue (is_name name)) (map (λ name. name.now) names.now) }
    requires fits { CoverFits (length names.now) cover }
    ensures { Hears builder.old builder.new (with_parts (LogicPart (cell_of (map (λ name. name.now) names.now) output.now (CoverFunction cover)) ∷ []) builder.old.said) result }
{
    builder.cover(names, output.bytes(), cover)
}

/// Whether a form has more nets than a cover may have.
pub fn is_too_wide(alloc: Global, form: Form<'_>) -> Result<bool, AllocError>
    ensures { IfOk result (λ wide. wide ≡ nat_lt MOST_COVER_INPUTS (length (once bytes_eq (nets_of form.entry)))) }
{
    let terms = form.into_terms(alloc)?;
    let inputs = inputs_of(alloc, terms.as_slice())?;
    Ok(inputs.len() > MOST_COVER_INPUTS)
}

/// The names of a table, lent.
fn lent<'b>(alloc: Global, names: &'b NetNames) -> Result<Vec<&'b [u8]>, AllocError>
    ensures { IfOk result (λ lent. map (λ name. name.now) lent.items ≡ names.now) }
{
    let mut lent = Vec::with_capacity(alloc, names.len())?;
    'names: for number in 0..names.len() {
        lent.push(names.name(number))?;
    }
    Ok(lent)
}
