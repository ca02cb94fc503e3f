//! The words of clauses, read and written.

ghost use Rattle.std.specs.Prelude.{◌≡◌, ◌∷◌, ◌++◌, [], OnOk};
ghost use Rattle.cg_text.specs.Written.{joined};
ghost use Rattle.cg_formula.specs.Tokens.{clause_token, literal_of};
ghost use Rattle.cg_formula.specs.DimacsText.{lit_word, clause_words};

use crate::formula::Lit;
use cg_text::number::{Number, push_number, read_number};
use std::alloc::AllocError;

/// What a word in a clause is.
#[derive(Clone, Copy)]
pub enum ClauseToken {
    /// A literal.
    Literal(Lit),
    /// The zero that ends a clause.
    End,
    /// Nothing that may stand in a clause.
    Other,
}

/// Reads a word of a clause whose variables are at most `greatest`.
pub fn read_clause_token(word: &[u8], greatest: u32) -> ClauseToken
    ensures { result ≡ clause_token greatest word.now }
{
    match word.split_first() {
        Some((b'-', digits)) => literal(read_number(digits), greatest, true),
        _ => match read_number(word) {
            Number::Small(0) => ClauseToken::End,
            number => literal(number, greatest, false),
        },
    }
}

/// The literal of a variable with this number.
fn literal(number: Number, greatest: u32, inverted: bool) -> ClauseToken
    ensures { result ≡ literal_of number greatest inverted }
{
    match number {
        Number::Small(variable) if 0 < variable && variable <= u64::from(greatest) => {
            ClauseToken::Literal(Lit {
                variable: variable as u32,
                inverted,
            })
        }
        _ => ClauseToken::Other,
    }
}

/// Puts a literal behind the text, and a space.
fn push_lit(text: &mut Vec<u8>, lit: Lit) -> Result<(), AllocError>
    ensures { OnOk result (text.new.items ≡ text.old.items ++ (lit_word lit ++ 32 ∷ [])) }
{
    if lit.inverted {
        text.push(b'-')?;
    }
    push_number(text, u64::from(lit.variable))?;
    text.push(b' ')?;
    Ok(())
}

/// Puts the words of a clause with these literals behind the text, up to its zero.
pub fn push_clause(text: &mut Vec<u8>, lits: &[Lit]) -> Result<(), AllocError>
    ensures { OnOk result (text.new.items ≡ text.old.items ++ joined (clause_words (record { lits = lits.now }))) }
{
    for lit in lits {
        push_lit(text, *lit)?;
    }
    text.push(b'0')?;
    Ok(())
}
