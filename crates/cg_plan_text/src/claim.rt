//! The words of claims and of bits of their leaves.

ghost use Rattle.std.specs.Prelude.{◌≡◌, ◌++◌, ◌∷◌, [], codes, map, OnOk};
ghost use Rattle.cg_plan_text.specs.Words.{claim_words, leaf_word, output_word, register_word, source_word};
ghost use Rattle.cg_plan_text.specs.inner.Spaced.{spaced};

use crate::names::{push_net, push_output, push_register, push_word};
use cg_claim::leaf::{LeafBit, LeafSource};
use cg_claim::name::ClaimName;
use cg_machine::machine::Machine;
use cg_net::id::RegId;
use cg_text::number::push_number;
use std::alloc::AllocError;

/// Puts the words of a claim behind a text, each behind a space.
#[tactic(auto, using(crate::proofs::TextLemmas::pieces))]
pub fn push_claim(text: &mut Vec<u8>, machine: &Machine, claim: ClaimName) -> Result<(), AllocError>
    ensures { OnOk result (text.new.items ≡ text.old.items ++ spaced (claim_words machine.now claim)) }
{
    match claim {
        ClaimName::Idle => push_word(text, b"idle"),
        ClaimName::Hold(reg) => push_of(text, b"hold", machine, reg),
        ClaimName::Stable(reg) => push_of(text, b"stable", machine, reg),
        ClaimName::Output(place) => push_shown(text, machine, place),
        ClaimName::Next(reg) => push_of(text, b"next", machine, reg),
        ClaimName::Enable => push_word(text, b"enable"),
    }
}

/// Puts a word and the name of a register behind a text.
#[tactic(auto, using(crate::proofs::TextLemmas::pieces))]
pub fn push_of(
    text: &mut Vec<u8>,
    word: &[u8],
    machine: &Machine,
    reg: RegId,
) -> Result<(), AllocError>
    ensures { OnOk result (text.new.items ≡ text.old.items ++ spaced (word.now ∷ register_word machine.now reg ∷ [])) }
{
    push_word(text, word)?;
    text.push(b' ')?;
    push_register(text, machine, reg)
}

/// Puts the word and the name of an output behind a text.
#[tactic(auto, using(crate::proofs::TextLemmas::pieces))]
fn push_shown(text: &mut Vec<u8>, machine: &Machine, place: u32) -> Result<(), AllocError>
    ensures { OnOk result (text.new.items ≡ text.old.items ++ spaced (codes "output" ∷ output_word machine.now place ∷ [])) }
{
    push_word(text, b"output")?;
    text.push(b' ')?;
    push_output(text, machine, place)
}

/// Puts bits of leaves behind a text, each behind a space.
#[tactic(auto, using(crate::proofs::TextLemmas::turns))]
pub fn push_leaves(
    text: &mut Vec<u8>,
    machine: &Machine,
    bits: &[LeafBit],
) -> Result<(), AllocError>
    ensures { OnOk result (text.new.items ≡ text.old.items ++ spaced (map (leaf_word machine.now) bits.now)) }
{
    'bits: for bit in bits {
        push_leaf(text, machine, bit)?;
    }
    Ok(())
}

/// Puts a bit of a leaf behind a text and a space: its copy, its name and the bit.
#[tactic(auto, using(crate::proofs::TextLemmas::pieces))]
fn push_leaf(text: &mut Vec<u8>, machine: &Machine, bit: &LeafBit) -> Result<(), AllocError>
    ensures { OnOk result (text.new.items ≡ text.old.items ++ 32 ∷ leaf_word machine.now bit.now) }
{
    text.push(b' ')?;
    push_number(text, u64::from(bit.leaf.copy))?;
    text.push(b':')?;
    push_source(text, machine, bit.leaf.source)?;
    text.push(b'=')?;
    text.extend_from_slice(&[if bit.bit { b'1' } else { b'0' }])
}

fn push_source(text: &mut Vec<u8>, machine: &Machine, source: LeafSource) -> Result<(), AllocError>
    ensures { OnOk result (text.new.items ≡ text.old.items ++ source_word machine.now source) }
{
    match source {
        LeafSource::Input(net) => push_net(text, machine, net),
        LeafSource::Register(reg) => push_register(text, machine, reg),
    }
}
