//! Words: 64 bits at once, each in a lane of its own. One evaluation of a function over words serves 64 lists of bits.

ghost use Rattle.std.specs.Prelude.{◌≡◌, IsTrue, length};
ghost use Rattle.std.specs.Bool.{Decides};
ghost use Rattle.cg_cell.specs.Cell.{variables_of};
ghost use Rattle.cg_cell.specs.Cover.{CoverFits, cover_value};
ghost use Rattle.cg_cell.specs.Expr.{is_over, term_of};
ghost use Rattle.cg_cell.specs.Term.{term_value};
ghost use Rattle.cg_netlist.specs.Moment.{cell_value, function_value};
ghost use Rattle.cg_netlist.specs.View.{function_seen};
ghost use Rattle.cg_netlist.specs.WellFormed.{IsOver};
ghost use Rattle.cg_word.specs.Words.{HasOne, IsWord, lane, word_not};

use cg_cell::cell::CellType;
use cg_cell::cover::Cover;
use cg_cell::domain::Domain;
use cg_cell::expr::Expr;
use cg_netlist::parts::Function;
use std::convert::Infallible;

/// Words as a domain. Nothing is kept, and nothing is ever refused.
#[derive(Drop)]
struct Words;

impl Domain for Words {
    ghost use Rattle.cg_cell.specs.Bits.{no_pairs};
    ghost use Rattle.cg_word.specs.Words.{words_ops};
    ghost use Rattle.cg_word.specs.inner.WordsLaws.{words_lawful};

    type Value = u64;

    type Fault = Infallible;

    ghost ops = { words_ops };

    ghost seen = { λ _. no_pairs };

    ghost number = { λ a. a };

    ghost refuses = { λ s a b f. ⊥ };

    fn constant(&mut self, bit: bool) -> u64 {
        if bit { u64::MAX } else { 0 }
    }

    fn not(&mut self, a: u64) -> u64 {
        inverse(a)
    }

    fn and(&mut self, a: u64, b: u64) -> Result<u64, Infallible> {
        Ok(a & b)
    }

    ghost lawful = { words_lawful };
}

/// The word with the other bit in each lane.
pub fn inverse(word: u64) -> u64
    ensures { result ≡ word_not word }
{
    !word
}

/// Whether the word is 1 in some lane.
pub fn has_one(word: u64) -> bool
    ensures { Decides result (HasOne word) }
{
    word != 0
}

/// The word of a logic cell's function at words of its inputs.
pub fn function_word(function: Function<'_>, inputs: &[u64]) -> u64
    requires { IsOver (length inputs.now) (function_seen function) }
    ensures { IsWord result (λ i. function_value (function_seen function.entry) (lane i inputs.now)) }
{
    match function {
        Function::Cover(cover) => cover_word(cover, inputs),
        Function::Cell(cell) => cell_word(cell, inputs),
    }
}

/// The word of a library cell's function, 0 where it has none, at words of its variables.
pub fn cell_word(cell: &CellType, inputs: &[u64]) -> u64
    requires { length inputs.now ≡ variables_of cell.now }
    ensures { IsWord result (λ i. cell_value cell.now (lane i inputs.now)) }
{
    match cell.function() {
        Some(function) => expression_word(function, inputs),
        None => 0,
    }
}

/// The word of a cover at words of its inputs.
fn cover_word(cover: &Cover, inputs: &[u64]) -> u64
    requires { CoverFits (length inputs.now) cover.now }
    ensures { IsWord result (λ i. cover_value cover.now (lane i inputs.now)) }
{
    match cover.eval(&mut Words, inputs) {
        Ok(word) => word,
    }
}

/// The word of an expression at words of its variables.
fn expression_word(expression: &Expr, inputs: &[u64]) -> u64
    requires { IsTrue (is_over (length inputs.now) expression.now) }
    ensures { IsWord result (λ i. term_value (lane i inputs.now) (term_of expression.now)) }
{
    match expression.eval(&mut Words, inputs) {
        Ok(word) => word,
    }
}
