//! Checking the text of an expression without keeping the expression.

ghost use Rattle.std.specs.Prelude.{◌≡◌, ℕ, List};
ghost use Rattle.std.specs.List.{list_any};
ghost use Rattle.std.specs.Str.{bytes_eq};
ghost use Rattle.cg_limit.specs.Answers.{OrNoMemory};
ghost use Rattle.cg_liberty_expression.specs.declared.fault.ExprFault.TheVariants.{NoMemory};
ghost use Rattle.cg_liberty_expression.specs.Reading.{read_text, step};
ghost use Rattle.cg_liberty_expression.specs.Reads.{mode_of, settled};
ghost use Rattle.cg_liberty_expression.specs.inner.Blanked.{blank_mode, blanked, is_known, with_constants};
ghost use Rattle.cg_liberty_expression.specs.inner.TokensSeen.{token_of};

use crate::fault::ExprFault;
use crate::reading::{Reading, after, end, first_byte};
use crate::tokens::{Token, TokenKind, Tokens, is_digit, is_letter};
use cg_cell::expr::Expr;
use std::alloc::Global;

/// Names, of which can be asked which words are among them.
pub trait Names {
    ghost names: { Self → List (List ℕ) };

    /// Whether the word is one of the names.
    fn knows(&self, word: &[u8]) -> bool
        ensures { result ≡ list_any (bytes_eq word.now) (names self.now) };
}

/// Checks that a text is an expression over these names: answers the first fault that reading it meets.
///
/// It takes no memory that grows with the text, and looks at each word once.
#[tactic(auto, using(crate::proofs::Blanked::checks))]
pub fn check_expr<N: Names>(alloc: Global, text: &[u8], names: &N) -> Result<(), ExprFault>
    ensures { OrNoMemory NoMemory (λ _. tt) result (settled (read_text (N.names names.now) text.now)) }
{
    let mut tokens = Tokens::new(text);
    let mut reading = Reading::new(alloc);
    'tokens: while let Some(token) = tokens.next() {
        checked(alloc, names, &mut reading, token)?;
    }
    end(alloc, reading, text.len())?;
    Ok(())
}

/// Reads one more token, and drops what was read.
#[tactic(auto, using(crate::proofs::Blanked::checks))]
fn checked<N: Names>(
    alloc: Global,
    names: &N,
    reading: &mut Reading,
    token: Token<'_>,
) -> Result<(), ExprFault>
    ensures { OrNoMemory NoMemory (λ _. blank_mode (mode_of reading.new.operand reading.new.stack)) result
        (blanked (step (N.names names.now) (mode_of reading.old.operand reading.old.stack) (token_of token.entry))) }
{
    after(alloc, &[], reading, known_as_constant(names, token))?;
    drop_operands(reading);
    Ok(())
}

/// The token, or the constant 1 where it is one of the names.
fn known_as_constant<'a, N: Names>(names: &N, token: Token<'a>) -> Token<'a>
    ensures { token_of result ≡ with_constants (N.names names.now) (token_of token.entry) }
{
    match token.kind {
        TokenKind::Word(word) => {
            if is_name_known(names, word) {
                Token {
                    at: token.at,
                    kind: TokenKind::Word(b"1".as_slice()),
                }
            } else {
                token
            }
        }
        _ => token,
    }
}

/// Whether a word is one of the names, and no constant.
fn is_name_known<N: Names>(names: &N, word: &[u8]) -> bool
    ensures { result ≡ is_known (N.names names.now) word.now }
{
    let first = first_byte(word);
    !is_digit(first) && is_letter(first) && names.knows(word)
}

/// Puts constants for the operands that were read last, and leaves the place at which the reading stands.
fn drop_operands(reading: &mut Reading)
    ensures { blank_mode (mode_of reading.new.operand reading.new.stack) ≡ blank_mode (mode_of reading.old.operand reading.old.stack) }
{
    if let Some(operand) = &mut reading.operand {
        *operand = Expr::Constant(false);
    }
    reading.stack.drop_operand();
}
