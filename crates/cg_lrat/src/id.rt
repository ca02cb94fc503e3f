//! The ids of clauses, as words: read and written.

ghost use Rattle.std.specs.Prelude.{◌≡◌, ◌∷◌, ◌++◌, [], OnOk, decimal};
ghost use Rattle.cg_text.specs.Written.{joined};
ghost use Rattle.cg_lrat.specs.Ids.{id_token};
ghost use Rattle.cg_lrat.specs.LratText.{id_words};

use cg_text::number::{Number, push_number, read_number};
use std::alloc::AllocError;

/// What a word among hints or deleted clauses is.
#[derive(Clone, Copy)]
pub enum IdToken {
    /// The id of a clause.
    Id(u64),
    /// The zero that ends the ids.
    End,
    /// Nothing that may stand there.
    Other,
}

/// Reads a word among ids.
pub fn read_id_token(word: &[u8]) -> IdToken
    ensures { result ≡ id_token word.now }
{
    match read_number(word) {
        Number::Small(0) => IdToken::End,
        Number::Small(id) if id < 1 << 63 => IdToken::Id(id),
        _ => IdToken::Other,
    }
}

/// Puts an id behind the text, and a space.
fn push_id(text: &mut Vec<u8>, id: u64) -> Result<(), AllocError>
    ensures { OnOk result (text.new.items ≡ text.old.items ++ (decimal id ++ 32 ∷ [])) }
{
    push_number(text, id)?;
    text.push(b' ')?;
    Ok(())
}

/// Puts ids behind the text, and the zero that ends them.
pub fn push_ids(text: &mut Vec<u8>, ids: &[u64]) -> Result<(), AllocError>
    ensures { OnOk result (text.new.items ≡ text.old.items ++ joined (id_words ids.now)) }
{
    for id in ids {
        push_id(text, *id)?;
    }
    text.push(b'0')?;
    Ok(())
}
