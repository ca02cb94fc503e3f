//! The text of the registers of a netlist that was gated.

ghost use Rattle.std.specs.Prelude.{◌≡◌, ◌++◌, map, length, IfOk, OnOk};
ghost use Rattle.std.specs.List.{range_with_len};
ghost use Rattle.std.specs.Option.{option_copied};
ghost use Rattle.cg_text.specs.Written.{text_of};
ghost use Rattle.cg_register_text.specs.Causes.{causes_of};
ghost use Rattle.cg_register_text.specs.Rises.{FewRises};
ghost use Rattle.cg_register_text.specs.Words.{IsToldOf, line_words, registers_text, tried_of};
ghost use Rattle.cg_register_text.specs.inner.Finding.{AreTables};

use crate::cause::Cause;
use crate::finding::{Tables, causes, tables_of};
use crate::line::push_line;
use crate::rises::BothRises;
use crate::sums::push_sums;
use crate::told::Told;
use cg_net::id::RegId;
use std::alloc::{AllocError, Global};

/// The text of the registers of a netlist that was gated: a line for each register of the netlist that was read, and one of the sums.
/// Where a stimulus is played, each line ends with rises.
///
/// It costs one pass over the registers, the hints and the stages, and for each register that is not gated or given and that no stage
/// has what its hold claims reach.
#[tactic(auto, using(crate::proofs::LineLemmas::pieces))]
pub fn registers_text(
    alloc: Global,
    told: &Told<'_>,
    rises: Option<&BothRises>,
) -> Result<Vec<u8>, AllocError>
    requires told { IsToldOf told.now }
    requires rises { FewRises (option_copied rises) }
    ensures { IfOk result (λ text. text.items ≡ registers_text told.now (option_copied rises.entry)) }
{
    let tables = tables_of(alloc, told)?;
    let causes = causes(alloc, told, &tables)?;
    let mut text = Vec::new(alloc);
    push_lines(&mut text, told, &tables, &causes, rises)?;
    push_sums(&mut text, &causes, rises)?;
    Ok(text)
}

/// Puts the lines of all registers with their causes behind a text.
#[tactic(auto, using(crate::proofs::LineLemmas::turns))]
fn push_lines(
    text: &mut Vec<u8>,
    told: &Told<'_>,
    tables: &Tables,
    causes: &[Cause],
    rises: Option<&BothRises>,
) -> Result<(), AllocError>
    requires told { IsToldOf told.now }
    requires tables { AreTables told.now tables.now }
    requires causes { causes.now ≡ causes_of (tried_of told.now) }
    ensures { OnOk result (text.new.items ≡ text.old.items
        ++ text_of (map (line_words told.now (option_copied rises.entry)) (range_with_len 0 (length told.now.read.registers)))) }
{
    'registers: for number in 0..told.read.registers() {
        let cause = causes[number as usize];
        push_line(text, told, tables, rises, RegId::new(number), cause)?;
    }
    Ok(())
}
