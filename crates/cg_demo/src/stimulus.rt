//! The stimulus of the pipeline.

ghost use Rattle.std.specs.Prelude.{◌≡◌, ◌+◌, ◌<◌, ◌^◌, ◌%◌, ◌==◌, ◌++◌, ◌∷◌, [], codes, IfOk, OnOk};
ghost use Rattle.cg_demo.specs.Pipeline.{bit_byte, each, line, nets, row, stimulus};

use crate::pieces::push_nets;
use std::alloc::{AllocError, Global};

/// The stimulus text of a pipeline of this size, which has 4,096 places at most.
#[tactic(auto, using(crate::proofs::Eaches::texts))]
pub fn stimulus(alloc: Global, n: u32) -> Result<Vec<u8>, AllocError>
    ensures { IfOk result (λ text. text.items ≡ stimulus n) }
{
    let mut text = Vec::new(alloc);
    text.extend_from_slice(b"inputs valid")?;
    push_nets(&mut text, n, b'd')?;
    text.push(b'\n')?;
    push_rows(&mut text, n)?;
    Ok(text)
}

/// Puts all rows behind a text.
#[tactic(auto, using(crate::proofs::Eaches::eaches))]
fn push_rows(text: &mut Vec<u8>, n: u32) -> Result<(), AllocError>
    ensures { OnOk result (text.new.items ≡ text.old.items ++ each 100 (row n)) }
{
    'rows: for j in 0..100u64 {
        push_row(text, n, j)?;
    }
    Ok(())
}

/// Puts one row behind a text.
#[tactic(auto, using(crate::proofs::Eaches::texts))]
fn push_row(text: &mut Vec<u8>, n: u32, j: u64) -> Result<(), AllocError>
    requires { j < 100 }
    ensures { OnOk result (text.new.items ≡ text.old.items ++ row n j) }
{
    text.push(bit_byte(j % 4 == 0))?;
    push_bits(text, n, j)?;
    text.extend_from_slice(b"\n")
}

/// Puts the bits of the data inputs in a row behind a text.
#[tactic(auto, using(crate::proofs::Eaches::eaches))]
fn push_bits(text: &mut Vec<u8>, n: u32, j: u64) -> Result<(), AllocError>
    requires { j < 100 }
    ensures { OnOk result (text.new.items ≡ text.old.items ++ each n (λ i. bit_byte ((i + j) % 2 == 1) ∷ [])) }
{
    'bits: for i in 0..n {
        text.push(bit_byte((u64::from(i) + j) % 2 == 1))?;
    }
    Ok(())
}

fn bit_byte(bit: bool) -> u8
    ensures { result ≡ bit_byte bit }
{
    if bit { b'1' } else { b'0' }
}
