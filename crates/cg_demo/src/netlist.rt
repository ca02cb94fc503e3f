//! The pipeline.

ghost use Rattle.std.specs.Prelude.{◌≡◌, ◌++◌, codes, decimal, IfOk, OnOk};
ghost use Rattle.cg_demo.specs.Pipeline.{cell_lines, each, entry_line, exit_line, generated, inverter_line, latch_line};
ghost use Rattle.cg_demo.specs.Pipeline.{latch_lines, line, nets, valid_lines};

use crate::pieces::{push_net, push_nets, push_numbered};
use std::alloc::{AllocError, Global};

/// The netlist text of a pipeline of this size.
#[tactic(auto, using(crate::proofs::Eaches::texts))]
pub fn generated(alloc: Global, n: u32) -> Result<Vec<u8>, AllocError>
    ensures { IfOk result (λ text. text.items ≡ generated n) }
{
    let mut text = Vec::new(alloc);
    push_head(&mut text, n)?;
    push_cells(&mut text, n)?;
    push_valid(&mut text)?;
    push_latches(&mut text, n, b'd', b'a')?;
    push_latches(&mut text, n, b'm', b'b')?;
    push_latches(&mut text, n, b'n', b'c')?;
    push_latches(&mut text, n, b'k', b'e')?;
    text.extend_from_slice(b".end\n")?;
    Ok(text)
}

/// Puts the registers of the valid bit behind a text.
#[tactic(auto, using(crate::proofs::Eaches::texts))]
fn push_valid(text: &mut Vec<u8>) -> Result<(), AllocError>
    ensures { OnOk result (text.new.items ≡ text.old.items ++ valid_lines) }
{
    text.extend_from_slice(
        b".latch valid v1 re clk 0\n.latch v1 v2 re clk 0\n.latch v2 v3 re clk 0\n",
    )
}

/// Puts the lines before the cells behind a text.
#[tactic(auto, using(crate::proofs::Eaches::texts))]
fn push_head(text: &mut Vec<u8>, n: u32) -> Result<(), AllocError>
    ensures { OnOk result (text.new.items ≡ text.old.items
        ++ (line (codes ".model demo") ++ line (codes ".inputs valid" ++ nets n 100) ++ line (codes ".outputs" ++ nets n 101) ++ line (codes ".clock clk"))) }
{
    text.extend_from_slice(b".model demo\n")?;
    push_rank(text, b".inputs valid", n, b'd')?;
    push_rank(text, b".outputs", n, b'e')?;
    text.extend_from_slice(b".clock clk\n")
}

/// Puts a line of a text and the nets of a rank behind a text.
#[tactic(auto, using(crate::proofs::Eaches::texts))]
fn push_rank(text: &mut Vec<u8>, before: &[u8], n: u32, letter: u8) -> Result<(), AllocError>
    ensures { OnOk result (text.new.items ≡ text.old.items ++ line (before.now ++ nets n letter)) }
{
    text.extend_from_slice(before)?;
    push_nets(text, n, letter)?;
    text.extend_from_slice(b"\n")
}

/// Puts the cells of all places behind a text.
#[tactic(auto, using(crate::proofs::Eaches::eaches))]
fn push_cells(text: &mut Vec<u8>, n: u32) -> Result<(), AllocError>
    ensures { OnOk result (text.new.items ≡ text.old.items ++ each n cell_lines) }
{
    'places: for i in 0..n {
        push_place(text, i)?;
    }
    Ok(())
}

/// Puts the cells of one place behind a text.
#[tactic(auto, using(crate::proofs::Eaches::texts))]
fn push_place(text: &mut Vec<u8>, i: u32) -> Result<(), AllocError>
    ensures { OnOk result (text.new.items ≡ text.old.items ++ cell_lines i) }
{
    push_entry(text, i)?;
    push_inverter(text, i)?;
    push_exit(text, i)
}

/// Puts the multiplexer before the second rank behind a text.
fn push_entry(text: &mut Vec<u8>, i: u32) -> Result<(), AllocError>
    ensures { OnOk result (text.new.items ≡ text.old.items ++ entry_line i) }
{
    push_three(text, b".gate MUX2 A=b", b" B=a", b" S=v1 Y=m", i)
}

/// Puts the inverter before the third rank behind a text.
fn push_inverter(text: &mut Vec<u8>, i: u32) -> Result<(), AllocError>
    ensures { OnOk result (text.new.items ≡ text.old.items ++ inverter_line i) }
{
    push_two(text, b".gate INV A=b", b" Y=n", i)
}

/// Puts the multiplexer before the last rank behind a text.
fn push_exit(text: &mut Vec<u8>, i: u32) -> Result<(), AllocError>
    ensures { OnOk result (text.new.items ≡ text.old.items ++ exit_line i) }
{
    push_three(text, b".gate MUX2 A=e", b" B=c", b" S=v3 Y=k", i)
}

/// Puts a line of two texts, each with a number, behind a text.
#[tactic(auto, using(crate::proofs::Eaches::texts))]
fn push_two(text: &mut Vec<u8>, first: &[u8], second: &[u8], i: u32) -> Result<(), AllocError>
    ensures { OnOk result (text.new.items ≡ text.old.items ++ line (first.now ++ decimal i ++ second.now ++ decimal i)) }
{
    push_numbered(text, first, i)?;
    push_numbered(text, second, i)?;
    text.extend_from_slice(b"\n")
}

/// Puts a line of three texts, each with a number, behind a text.
#[tactic(auto, using(crate::proofs::Eaches::texts))]
fn push_three(
    text: &mut Vec<u8>,
    first: &[u8],
    second: &[u8],
    third: &[u8],
    i: u32,
) -> Result<(), AllocError>
    ensures { OnOk result (text.new.items ≡ text.old.items ++ line (first.now ++ decimal i ++ second.now ++ decimal i ++ third.now ++ decimal i)) }
{
    push_numbered(text, first, i)?;
    push_numbered(text, second, i)?;
    push_numbered(text, third, i)?;
    text.extend_from_slice(b"\n")
}

/// Puts the registers of a rank behind a text.
#[tactic(auto, using(crate::proofs::Eaches::eaches))]
fn push_latches(text: &mut Vec<u8>, n: u32, input: u8, output: u8) -> Result<(), AllocError>
    ensures { OnOk result (text.new.items ≡ text.old.items ++ latch_lines n input output) }
{
    'registers: for i in 0..n {
        push_latch(text, input, output, i)?;
    }
    Ok(())
}

/// Puts one register of a rank behind a text.
#[tactic(auto, using(crate::proofs::Eaches::texts))]
fn push_latch(text: &mut Vec<u8>, input: u8, output: u8, i: u32) -> Result<(), AllocError>
    ensures { OnOk result (text.new.items ≡ text.old.items ++ latch_line input output i) }
{
    text.extend_from_slice(b".latch")?;
    push_net(text, input, i)?;
    push_net(text, output, i)?;
    text.extend_from_slice(b" re clk 0\n")
}
