//! The line of the sums.

ghost use Rattle.std.specs.Prelude.{◌≡◌, ◌++◌, ◌∷◌, ◌≤◌, [], decimal, length, sum, OnOk};
ghost use Rattle.std.specs.List.{count_by};
ghost use Rattle.std.specs.Option.{option_copied};
ghost use Rattle.cg_limit.specs.declared.TheConstants.{MOST_REGISTERS};
ghost use Rattle.cg_plan_text.specs.inner.Spaced.{spaced};
ghost use Rattle.cg_text.specs.Written.{line_text};
ghost use Rattle.cg_register_text.specs.Rises.{FewRises};
ghost use Rattle.cg_register_text.specs.Words.{all_edges, is_free, is_gated, is_given, is_tried, is_wide, kinds_words, sums_words};

use crate::cause::Cause;
use crate::line::push_edges;
use crate::rises::BothRises;
use cg_plan_text::names::{push_count, push_word};
use std::alloc::AllocError;

/// Puts the line of the sums behind a text.
#[tactic(auto, using(crate::proofs::LineLemmas::lines))]
pub(crate) fn push_sums(
    text: &mut Vec<u8>,
    causes: &[Cause],
    rises: Option<&BothRises>,
) -> Result<(), AllocError>
    requires { FewRises (option_copied rises) }
    ensures { OnOk result (text.new.items ≡ text.old.items ++ line_text (sums_words causes.now (option_copied rises.entry))) }
{
    text.extend_from_slice(b"registers")?;
    push_count(text, causes.len() as u64)?;
    push_kinds(text, causes)?;
    push_all_edges(text, rises)?;
    text.extend_from_slice(b"\n")
}

/// Puts how many registers have a cause of each kind behind a text.
#[tactic(auto, using(crate::proofs::LineLemmas::pieces))]
fn push_kinds(text: &mut Vec<u8>, causes: &[Cause]) -> Result<(), AllocError>
    ensures { OnOk result (text.new.items ≡ text.old.items ++ spaced (kinds_words causes.now)) }
{
    push_sum(text, b"gated", gated(causes))?;
    push_sum(text, b"given", given(causes))?;
    push_sum(text, b"tried", tried(causes))?;
    push_sum(text, b"wide", wide(causes))?;
    push_sum(text, b"free", free(causes))
}

/// Puts a word and a number behind a text.
#[tactic(auto, using(crate::proofs::LineLemmas::pieces))]
fn push_sum(text: &mut Vec<u8>, word: &[u8], number: usize) -> Result<(), AllocError>
    ensures { OnOk result (text.new.items ≡ text.old.items ++ spaced (word.now ∷ decimal number ∷ [])) }
{
    push_word(text, word)?;
    push_count(text, number as u64)
}

fn gated(causes: &[Cause]) -> usize
    ensures { result ≡ count_by is_gated causes.now }
{
    causes.iter().filter(|cause| cause.is_gated()).count()
}

fn given(causes: &[Cause]) -> usize
    ensures { result ≡ count_by is_given causes.now }
{
    causes.iter().filter(|cause| cause.is_given()).count()
}

fn tried(causes: &[Cause]) -> usize
    ensures { result ≡ count_by is_tried causes.now }
{
    causes.iter().filter(|cause| cause.is_tried()).count()
}

fn wide(causes: &[Cause]) -> usize
    ensures { result ≡ count_by is_wide causes.now }
{
    causes.iter().filter(|cause| cause.is_wide()).count()
}

fn free(causes: &[Cause]) -> usize
    ensures { result ≡ count_by is_free causes.now }
{
    causes.iter().filter(|cause| cause.is_free()).count()
}

/// Puts all rises of all registers behind a text, where a stimulus is played.
fn push_all_edges(text: &mut Vec<u8>, rises: Option<&BothRises>) -> Result<(), AllocError>
    requires { FewRises (option_copied rises) }
    ensures { OnOk result (text.new.items ≡ text.old.items ++ spaced (all_edges (option_copied rises.entry))) }
{
    match rises {
        None => Ok(()),
        Some(rises) => {
            let original = sum_of(rises.original.as_slice());
            let written = sum_of(rises.written.as_slice());
            push_edges(text, original, written)
        }
    }
}

/// The sum of numbers, of which there are no more than a netlist may have registers.
fn sum_of(numbers: &[u32]) -> u64
    requires { length numbers.now ≤ MOST_REGISTERS }
    ensures { result ≡ sum numbers.now }
{
    let mut total = 0;
    'numbers: for number in numbers {
        total += u64::from(*number);
    }
    total
}
