//! What begins at a byte of a Liberty text: a blank, a comment, a joined line end, or a token.

ghost use Rattle.std.specs.Prelude.{◌≡◌, ◌+◌, ◌<◌, ◌≤◌, ◌==◌, false, length, Option, IfSome};
ghost use Rattle.cg_liberty_text.specs.declared.lexeme.Kind.TheVariants.{Quoted};
ghost use Rattle.cg_liberty_text.specs.declared.lexeme.Lexeme.TheVariants.{Blank, Token};
ghost use Rattle.cg_liberty_text.specs.Lexeme.{IsWithin, begins_comment, closed, closes, comment_length, comment_lexeme, ends_word};
ghost use Rattle.cg_liberty_text.specs.Lexeme.{escapes};
ghost use Rattle.cg_liberty_text.specs.Lexeme.{is_mark, join_length, lexeme, line_length, longer, mark_kind, quoted_length};
ghost use Rattle.cg_liberty_text.specs.Lexeme.{word_length};

use cg_text::blanks::is_white_space;

/// The kinds of tokens.
#[derive(Clone, Copy)]
pub enum Kind {
    /// `{`
    OpenBrace,

    /// `}`
    CloseBrace,

    /// `(`
    OpenParen,

    /// `)`
    CloseParen,

    /// `:`
    Colon,

    /// `;`
    Semicolon,

    /// `,`
    Comma,

    /// A string between `"` and `"`.
    Quoted,

    /// A word: what stands between blanks, marks, strings, comments and joins.
    Word,

    /// No token: a `\` that joins no lines, or a string or comment that is not closed.
    Bad,
}

/// What begins at a byte, each with the number of its bytes after the first.
#[derive(Clone, Copy)]
pub enum Lexeme {
    /// A blank other than a line end, a comment, or a `\` that joins the next line.
    Blank(usize),

    /// A line end.
    LineEnd,

    /// A token.
    Token(Kind, usize),

    /// A byte that begins none of these, or one that is not closed.
    Bad,
}

/// One of the seven bytes that are tokens by themselves.
fn is_mark_byte(byte: u8) -> bool
    ensures { result ≡ is_mark byte }
{
    byte == b'{'
        || byte == b'}'
        || byte == b'('
        || byte == b')'
        || byte == b':'
        || byte == b';'
        || byte == b','
}

/// The kind of the token that a mark is.
fn kind_of_mark(byte: u8) -> Kind
    ensures { result ≡ mark_kind byte }
{
    if byte == b'{' {
        Kind::OpenBrace
    } else if byte == b'}' {
        Kind::CloseBrace
    } else if byte == b'(' {
        Kind::OpenParen
    } else if byte == b')' {
        Kind::CloseParen
    } else if byte == b':' {
        Kind::Colon
    } else if byte == b';' {
        Kind::Semicolon
    } else {
        Kind::Comma
    }
}

/// Whether a comment begins with `byte` before the bytes `after` it.
fn comment_begins(byte: u8, after: &[u8]) -> bool
    ensures { result ≡ begins_comment byte after.now }
{
    byte == b'/'
        && match after.first() {
            Some(second) => *second == b'*' || *second == b'/',
            None => false,
        }
}

/// The number of bytes of a join behind its `\`, up to and with the line end; none where no join begins.
pub fn join_bytes(after: &[u8]) -> Option<usize>
    ensures length { result ≡ join_length after.now }
    ensures within { IfSome result (λ n. n ≤ length after.now) }
{
    'bytes: for (i, byte) in after.iter().enumerate() {
        if *byte == b'\n' {
            return Some(i + 1);
        }
        if !(*byte == b' ' || *byte == b'\t' || *byte == b'\r') {
            return None;
        }
    }
    None
}

/// Whether a byte of a string escapes the next one.
fn byte_escapes(escaped: bool, byte: u8) -> bool
    ensures { result ≡ escapes escaped byte }
{
    !escaped && byte == b'\\'
}

/// Whether a byte of a string ends it.
fn byte_closes(escaped: bool, byte: u8) -> bool
    ensures { result ≡ closes escaped byte }
{
    !escaped && byte == b'"'
}

/// The number of bytes of a string behind its first `"` and before its last.
fn quoted_bytes(after: &[u8]) -> Option<usize>
    ensures length { result ≡ quoted_length false after.now }
    ensures within { IfSome result (λ n. n < length after.now) }
{
    let mut escaped = false;
    'bytes: for (i, byte) in after.iter().enumerate() {
        if byte_closes(escaped, *byte) {
            return Some(i);
        }
        escaped = byte_escapes(escaped, *byte);
    }
    None
}

/// The number of bytes of a comment behind its `/*`, up to and with the `*/`.
fn comment_bytes(after: &[u8]) -> Option<usize>
    ensures length { result ≡ comment_length false after.now }
    ensures within { IfSome result (λ n. n ≤ length after.now) }
{
    let mut starred = false;
    'bytes: for (i, byte) in after.iter().enumerate() {
        if starred && *byte == b'/' {
            return Some(i + 1);
        }
        starred = *byte == b'*';
    }
    None
}

/// The number of bytes before the next line end.
fn line_bytes(after: &[u8]) -> usize
    ensures length { result ≡ line_length after.now }
    ensures within { result ≤ length after.now }
{
    'bytes: for (i, byte) in after.iter().enumerate() {
        if *byte == b'\n' {
            return i;
        }
    }
    after.len()
}

/// Whether a word ends before `byte`, which stands before the bytes `after` it.
fn word_ends(byte: u8, after: &[u8]) -> bool
    ensures { result ≡ ends_word byte after.now }
{
    is_white_space(byte)
        || is_mark_byte(byte)
        || byte == b'"'
        || byte == b'\\'
        || comment_begins(byte, after)
}

/// The number of bytes before the one that ends a word.
fn word_bytes(after: &[u8]) -> usize
    ensures length { result ≡ word_length after.now }
    ensures within { result ≤ length after.now }
{
    'bytes: for (i, byte) in after.iter().enumerate() {
        if word_ends(*byte, &after[i + 1..]) {
            return i;
        }
    }
    after.len()
}

/// The comment whose first `/` stands before the bytes `after` it.
fn comment_of(after: &[u8]) -> Lexeme
    requires { 0 < length after.now }
    ensures lexeme { result ≡ comment_lexeme after.now }
    ensures within { IsWithin (length after.now) result }
{
    let inside = &after[1..];
    if after[0] != b'*' {
        return Lexeme::Blank(1 + line_bytes(inside));
    }
    match comment_bytes(inside) {
        Some(more) => Lexeme::Blank(1 + more),
        None => Lexeme::Bad,
    }
}

/// The string whose first `"` stands before the bytes `after` it.
fn quoted_of(after: &[u8]) -> Lexeme
    ensures lexeme { result ≡ closed (Token Quoted) (longer 1 (quoted_length false after.now)) }
    ensures within { IsWithin (length after.now) result }
{
    match quoted_bytes(after) {
        Some(more) => Lexeme::Token(Kind::Quoted, 1 + more),
        None => Lexeme::Bad,
    }
}

/// The join whose `\` stands before the bytes `after` it.
fn join_of(after: &[u8]) -> Lexeme
    ensures lexeme { result ≡ closed Blank (join_length after.now) }
    ensures within { IsWithin (length after.now) result }
{
    match join_bytes(after) {
        Some(more) => Lexeme::Blank(more),
        None => Lexeme::Bad,
    }
}

/// What begins at `byte`, which stands before the bytes `after` it.
pub fn lexeme_at(byte: u8, after: &[u8]) -> Lexeme
    ensures lexeme { result ≡ lexeme byte after.now }
    ensures within { IsWithin (length after.now) result }
{
    if byte == b'\n' {
        Lexeme::LineEnd
    } else if is_white_space(byte) {
        Lexeme::Blank(0)
    } else if byte == b'\\' {
        join_of(after)
    } else if comment_begins(byte, after) {
        comment_of(after)
    } else if byte == b'"' {
        quoted_of(after)
    } else if is_mark_byte(byte) {
        Lexeme::Token(kind_of_mark(byte), 0)
    } else {
        Lexeme::Token(Kind::Word, word_bytes(after))
    }
}
