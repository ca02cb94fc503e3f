//! A text read statement by statement.

ghost use Rattle.std.specs.Prelude.{◌≡◌, [], length, None, Some, MatchOption, MatchResult};
ghost use Rattle.cg_liberty_text.specs.Statement.{put_statement, statements};
ghost use Rattle.cg_liberty_text.specs.Statement.Phase.{Start};
ghost use Rattle.cg_liberty_text.specs.Token.{tokens};

use crate::fault::TextFault;
use crate::statement::{Statement, next_statement};
use crate::tokens::Tokens;
use std::marker::Model;

/// A place in a text, from which its statements are read.
///
/// Clauses see the statements that are left, up to the first fault, and that fault where there is one.
#[derive(Drop)]
pub struct Statements<'a> {
    /// What is left of the text.
    tokens: Tokens<'a>,

    /// How many groups are open.
    depth: usize,

    /// Whether the library was closed.
    done: bool,
}

impl<'a> Model for Statements<'a> {
    ghost use Rattle.std.specs.Prelude.{◌≤◌, cond};
    ghost use Rattle.cg_limit.specs.declared.TheConstants.{MOST_NESTING};
    ghost use Rattle.cg_liberty_text.specs.Statement.{Read, statements};
    ghost use Rattle.cg_liberty_text.specs.Statement.Phase.{Done, Start};

    ghost Value = { Read };

    ghost view = { λ s. statements s.tokens.1 s.depth (cond s.done Done Start) s.tokens.0 };

    ghost invariant = { λ s. s.depth ≤ MOST_NESTING };
}

impl<'a> Statements<'a> {
    /// The statements of a text.
    pub fn new(text: &'a [u8]) -> Statements<'a>
        ensures { result ≡ statements (length text.entry.now) 0 Start (tokens text.entry.now) }
    {
        Statements {
            tokens: Tokens::new(text),
            depth: 0,
            done: false,
        }
    }

    /// Takes the next statement, or nothing behind the last one.
    pub fn next(&mut self) -> Result<Option<Statement<'a>>, TextFault>
        ensures { MatchResult result (λ next. MatchOption next ((self.old ≡ ([], None)) × (self.new ≡ ([], None)))
            (λ statement. self.old ≡ put_statement statement self.new)) (λ fault. self.old.1 ≡ Some fault) }
    {
        if self.done {
            return match self.tokens.next() {
                Some(token) => Err(token.unexpected()),
                None => Ok(None),
            };
        }
        let statement = next_statement(&mut self.tokens, self.depth)?;
        match &statement {
            Statement::Open(_, _) => self.depth += 1,
            Statement::Close => {
                self.depth -= 1;
                self.done = self.depth == 0;
            }
            Statement::Attribute(_, _) => {}
        }
        Ok(Some(statement))
    }
}
