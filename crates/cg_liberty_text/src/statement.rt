//! One statement of a Liberty text.

ghost use Rattle.std.specs.Prelude.{◌≡◌, ◌==◌, ◌<◌, ◌≤◌, IfOk, MatchResult, None, cond, true};
ghost use Rattle.cg_liberty_text.specs.Argument.{argument_texts};
ghost use Rattle.cg_liberty_text.specs.Statement.{FitsDepth, Reads, Refused};
ghost use Rattle.cg_liberty_text.specs.Statement.Phase.{Listed, Listing, Named, Start, Valued};
ghost use Rattle.cg_liberty_text.specs.declared.lexeme.Kind.TheVariants.{OpenParen};
ghost use Rattle.cg_liberty_text.specs.declared.statement.Statement.TheVariants.{Attribute, Open};
ghost use Rattle.cg_liberty_text.specs.inner.Values.{ReadsValue};

use crate::argument::{Arguments, pass_arguments, pass_value, text_of_value};
use crate::fault::TextFault;
use crate::text::Text;
use crate::token::Token;
use crate::tokens::Tokens;
use cg_limit::MOST_NESTING;

/// The beginning of a group, its end, or an attribute.
#[derive(Drop)]
pub enum Statement<'a> {
    /// A group's name and arguments, up to its `{`.
    Open(Text<'a>, Arguments<'a>),

    /// The `}` of a group.
    Close,

    /// An attribute's name, and its value where that is one word or one string.
    Attribute(Text<'a>, Option<Text<'a>>),
}

/// Reads the next statement inside `depth` open groups.
pub fn next_statement<'a>(tokens: &mut Tokens<'a>, depth: usize) -> Result<Statement<'a>, TextFault>
    requires { depth ≤ MOST_NESTING }
    ensures statement { MatchResult result (Reads tokens.old.1 depth Start tokens.old.0 tokens.new.0) (Refused tokens.old.1 depth Start tokens.old.0) }
    ensures depth { IfOk result (FitsDepth depth) }
    ensures end { tokens.new.1 ≡ tokens.old.1 }
{
    'lone: while let Some(token) = tokens.next() {
        if token.kind.is_word() && (0 < depth || token.text.is(b"library")) {
            return statement_named(tokens, depth, token);
        }
        if token.kind.is_semicolon() && 0 < depth {
            continue;
        }
        if token.kind.is_close_brace() && 0 < depth {
            return Ok(Statement::Close);
        }
        return Err(token.unexpected());
    }
    Err(TextFault::BadGroup(tokens.end()))
}

/// Reads the rest of a statement behind its first word.
fn statement_named<'a>(
    tokens: &mut Tokens<'a>,
    depth: usize,
    word: Token<'a>,
) -> Result<Statement<'a>, TextFault>
    requires { depth ≤ MOST_NESTING }
    ensures statement { MatchResult result (Reads tokens.old.1 depth (Named word.entry) tokens.old.0 tokens.new.0)
        (Refused tokens.old.1 depth (Named word.entry) tokens.old.0) }
    ensures depth { IfOk result (FitsDepth depth) }
    ensures end { tokens.new.1 ≡ tokens.old.1 }
{
    let Some(token) = tokens.next() else {
        return Err(TextFault::BadGroup(tokens.end()));
    };
    if token.kind.is_open_paren() {
        statement_listed(tokens, depth, word)
    } else if token.kind.is_colon() && 0 < depth {
        statement_valued(tokens, depth, word)
    } else {
        Err(token.unexpected())
    }
}

/// Reads the rest of a simple attribute behind its `:`.
#[tactic(auto, using(crate::proofs::Phases::valued))]
fn statement_valued<'a>(
    tokens: &mut Tokens<'a>,
    depth: usize,
    word: Token<'a>,
) -> Result<Statement<'a>, TextFault>
    ensures statement { MatchResult result (ReadsValue tokens.old.1 depth word.entry tokens.old.0 tokens.new.0)
        (Refused tokens.old.1 depth Valued tokens.old.0) }
    ensures depth { IfOk result (FitsDepth depth) }
    ensures end { tokens.new.1 ≡ tokens.old.1 }
{
    let text = text_of_value(tokens);
    pass_value(tokens)?;
    Ok(Statement::Attribute(word.text, text))
}

/// Reads the rest of a group's head or of a complex attribute behind its `(`.
#[tactic(auto, using(crate::proofs::Phases::listing))]
fn statement_listed<'a>(
    tokens: &mut Tokens<'a>,
    depth: usize,
    word: Token<'a>,
) -> Result<Statement<'a>, TextFault>
    requires { depth ≤ MOST_NESTING }
    ensures statement { MatchResult result (Reads tokens.old.1 depth (Listing word.entry (argument_texts tokens.old.0) OpenParen) tokens.old.0 tokens.new.0)
        (Refused tokens.old.1 depth (Listing word.entry (argument_texts tokens.old.0) OpenParen) tokens.old.0) }
    ensures depth { IfOk result (FitsDepth depth) }
    ensures end { tokens.new.1 ≡ tokens.old.1 }
{
    let arguments = Arguments::new(tokens.again());
    pass_arguments(tokens)?;
    statement_opened(tokens, depth, word, arguments)
}

/// Passes over the `{` of a group behind its arguments, and answers whether there is one; without one, the statement is a
/// complex attribute.
fn pass_brace(
    tokens: &mut Tokens<'_>,
    depth: usize,
    word: &Token<'_>,
    arguments: &Arguments<'_>,
) -> Result<bool, TextFault>
    requires { depth ≤ MOST_NESTING }
    ensures statement { MatchResult result
        (λ opens. Reads tokens.old.1 depth (Listed word.now arguments.now) tokens.old.0 tokens.new.0
        (cond opens (Open word.now.text arguments.now) (Attribute word.now.text None)))
        (Refused tokens.old.1 depth (Listed word.now arguments.now) tokens.old.0) }
    ensures depth { IfOk result (λ opens. opens ≡ true → depth < MOST_NESTING) }
    ensures end { tokens.new.1 ≡ tokens.old.1 }
{
    let mut ahead = tokens.again();
    let Some(token) = ahead.next() else {
        return Err(TextFault::BadGroup(tokens.end()));
    };
    if !token.kind.is_open_brace() {
        if depth == 0 {
            return Err(token.unexpected());
        }
        return Ok(false);
    }
    if depth == MOST_NESTING {
        return Err(TextFault::Nesting);
    }
    if depth == 1 && word.text.is(b"cell") && !arguments.is_one() {
        return Err(TextFault::BadGroup(word.at));
    }
    *tokens = ahead;
    Ok(true)
}

/// Reads what stands behind the arguments of a statement: the `{` of a group, or nothing of a complex attribute.
fn statement_opened<'a>(
    tokens: &mut Tokens<'a>,
    depth: usize,
    word: Token<'a>,
    arguments: Arguments<'a>,
) -> Result<Statement<'a>, TextFault>
    requires { depth ≤ MOST_NESTING }
    ensures statement { MatchResult result (Reads tokens.old.1 depth (Listed word.entry arguments.entry) tokens.old.0 tokens.new.0)
        (Refused tokens.old.1 depth (Listed word.entry arguments.entry) tokens.old.0) }
    ensures depth { IfOk result (FitsDepth depth) }
    ensures end { tokens.new.1 ≡ tokens.old.1 }
{
    if pass_brace(tokens, depth, &word, &arguments)? {
        Ok(Statement::Open(word.text, arguments))
    } else {
        Ok(Statement::Attribute(word.text, None))
    }
}
