//! The token that is at hand.

ghost use Rattle.std.specs.Prelude.{◌≡◌};
ghost use Rattle.cg_verilog_expression.specs.Ahead.{ahead};

use cg_verilog_tokens::mark::Mark;
use cg_verilog_tokens::token::Token;
use cg_verilog_tokens::tokens::Tokens;

/// What is at hand of some tokens: the next one, if there is one. Most tokens are marks, which are handed on as less.
#[derive(Drop)]
pub enum Ahead<'a> {
    /// No token.
    Over,

    /// A mark.
    Mark(Mark),

    /// A token of any kind.
    Token(Token<'a>),
}

/// Takes the next of some tokens, if there is one.
pub fn hold_next<'a>(tokens: &mut Tokens<'a>, next: &mut Ahead<'a>)
    ensures next { ahead next.new tokens.new.0 ≡ tokens.old.0 }
    ensures end { tokens.new.1 ≡ tokens.old.1 }
{
    match tokens.next_mark() {
        Some(mark) => *next = Ahead::Mark(mark),
        None => hold_token(tokens, next),
    }
}

/// The same, of whatever kind it is.
#[inline(never)]
fn hold_token<'a>(tokens: &mut Tokens<'a>, next: &mut Ahead<'a>)
    ensures next { ahead next.new tokens.new.0 ≡ tokens.old.0 }
    ensures end { tokens.new.1 ≡ tokens.old.1 }
{
    *next = match tokens.next() {
        None => Ahead::Over,
        Some(token) => Ahead::Token(token),
    };
}
