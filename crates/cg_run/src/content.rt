//! Making refused contents: what a complaint says of a file, with a number or a name.

ghost use Rattle.std.specs.Prelude.{◌≡◌, ◌++◌, decimal, IfOk};

use crate::refusal::{Content, Owner};
use cg_list::Seq;
use cg_text::number::push_number;
use std::alloc::{AllocError, Global};

impl Content {
    /// A content that is refused for this.
    pub fn plain(alloc: Global, owner: Owner, text: &[u8]) -> Result<Content, AllocError>
        ensures { IfOk result (λ content. content ≡ record { owner = owner; text = text.now }) }
    {
        let text = Seq::from_vec(Vec::from_slice(alloc, text)?);
        Ok(Content { owner, text })
    }

    /// A content that is refused for this, at a line or place.
    pub fn numbered(
        alloc: Global,
        owner: Owner,
        text: &[u8],
        number: u64,
    ) -> Result<Content, AllocError>
        ensures { IfOk result (λ content. content ≡ record { owner = owner; text = text.now ++ decimal number }) }
    {
        let mut line = Vec::from_slice(alloc, text)?;
        push_number(&mut line, number)?;
        let text = Seq::from_vec(line);
        Ok(Content { owner, text })
    }

    /// A content that is refused for this, with the name that it is refused for.
    pub fn named(
        alloc: Global,
        owner: Owner,
        text: &[u8],
        name: &[u8],
    ) -> Result<Content, AllocError>
        ensures { IfOk result (λ content. content ≡ record { owner = owner; text = text.now ++ name.now }) }
    {
        let mut line = Vec::from_slice(alloc, text)?;
        line.extend_from_slice(name)?;
        let text = Seq::from_vec(line);
        Ok(Content { owner, text })
    }
}
