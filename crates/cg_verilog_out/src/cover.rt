//! The assignment of a cover.

ghost use Rattle.std.specs.Prelude.{◌≡◌, ◌++◌, [], IfOk, OnOk, Some, length, map, nat_eq};
ghost use Rattle.std.specs.List.{AllByRecursion, filter_map, list_any};
ghost use Rattle.std.specs.Option.{option_to_list};
ghost use Rattle.cg_net.specs.Names.{net_name};
ghost use Rattle.cg_netlist_placed.specs.Within.{AreNets, CellNets};
ghost use Rattle.cg_netlist.specs.View.{cell_seen};
ghost use Rattle.cg_netlist.specs.Netlist.{IsNetlist};
ghost use Rattle.cg_netlist.specs.WellFormed.{IsOver};
ghost use Rattle.cg_netlist.specs.Wiring.{map_cell};
ghost use Rattle.cg_netlist.specs.declared.parts.LogicFunction.TheVariants.{Cover as CoverFunction};
ghost use Rattle.cg_verilog_text.specs.CoverForms.{is_empty, sum_or_constant, term_of};
ghost use Rattle.cg_verilog_text.specs.Items.{Assign};
ghost use Rattle.cg_verilog_text.specs.Written.{item_line};
ghost use Rattle.cg_verilog_text.specs.WrittenItems.{function_item};
ghost use Rattle.cg_verilog_out.specs.inner.OpenTerms.{IsOpen, literal_named};

use crate::forms::{push_assign, push_constant};
use crate::literal::Term;
use crate::term::OpenTerm;
use cg_cell::cover::Cover;
use cg_cell::rows::CoverRows;
use cg_net::id::NetId;
use cg_netlist::netlist::Netlist;
use cg_netlist::parts::CellView;
use std::alloc::{AllocError, Global};

/// The terms of rows over these nets; a row that gives a net both bits has none.
fn terms_of<'a>(
    alloc: Global,
    netlist: &'a Netlist,
    inputs: &[NetId],
    rows: &CoverRows,
    open_term: &mut OpenTerm<'a>,
) -> Result<Vec<Term<'a>>, AllocError>
    requires inputs { AreNets netlist.now inputs.now }
    requires long { AllByRecursion (λ row. length row ≡ length inputs.now) rows.now }
    requires none { IsOpen netlist.now.names open_term.old (Some []) }
    ensures terms { IfOk result (λ terms. terms.items
        ≡ map (map (literal_named netlist.entry.now.names)) (filter_map (term_of nat_eq inputs.now) rows.now)) }
    ensures none { OnOk result (IsOpen netlist.entry.now.names open_term.new (Some [])) }
{
    let mut terms = Vec::new(alloc);
    'rows: for number in 0..rows.len() {
        let term = open_term.of_row(alloc, netlist, inputs, rows.row(number))?;
        push_term(&mut terms, term)?;
    }
    Ok(terms)
}

/// Puts a term behind others, if there is one.
fn push_term<'a>(terms: &mut Vec<Term<'a>>, term: Option<Term<'a>>) -> Result<(), AllocError>
    ensures { OnOk result (terms.new.items ≡ terms.old.items ++ option_to_list term.entry) }
{
    if let Some(term) = term {
        terms.push(term)?;
    }
    Ok(())
}

/// Whether a term has no literal, so that it is 1 always.
#[tactic(auto, using(crate::proofs::Searches::empties))]
fn has_empty(terms: &[Term<'_>]) -> bool
    ensures { result ≡ list_any is_empty terms.now }
{
    'terms: for term in terms {
        if term.is_empty() {
            return true;
        }
    }
    false
}

/// Appends the line of a net that is a sum of terms, or a constant where there is no term or an empty one.
fn push_form(out: &mut Vec<u8>, net: &[u8], on: bool, terms: &[Term<'_>]) -> Result<(), AllocError>
    ensures { OnOk result (out.new.items ≡ out.old.items ++ item_line (Assign net.now (sum_or_constant on terms.now))) }
{
    if terms.is_empty() {
        push_constant(out, net, !on)
    } else if has_empty(terms) {
        push_constant(out, net, on)
    } else {
        push_assign(out, net, on, terms)
    }
}

/// Appends the line of a logic cell that is a cover.
pub(crate) fn push_cover<'a>(
    alloc: Global,
    out: &mut Vec<u8>,
    open_term: &mut OpenTerm<'a>,
    netlist: &'a Netlist,
    cell: &CellView<'a>,
    cover: &Cover,
) -> Result<(), AllocError>
    requires netlist { IsNetlist netlist.now }
    requires nets { CellNets netlist.now (cell_seen cell.now) }
    requires over { IsOver (length cell.now.inputs.now) (CoverFunction cover.now) }
    requires none { IsOpen netlist.now.names open_term.old (Some []) }
    ensures line { OnOk result (out.new.items
        ≡ out.old.items ++ item_line (function_item (map_cell (net_name netlist.entry.now.names) (cell_seen cell.entry.now)) (CoverFunction cover.now))) }
    ensures none { OnOk result (IsOpen netlist.entry.now.names open_term.new (Some [])) }
{
    let terms = terms_of(alloc, netlist, cell.inputs, cover.rows(), open_term)?;
    push_form(out, netlist.name(cell.output), cover.on(), &terms)
}
