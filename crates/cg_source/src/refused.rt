//! Contents that are refused for a place or a name.

ghost use Rattle.std.specs.Prelude.{◌≡◌, ◌++◌, decimal, IfOk};
ghost use Rattle.cg_source.specs.Refused.{refused_for};

use cg_run::{Content, Owner, Trouble};
use std::alloc::{AllocError, Global};

/// A refused content.
pub fn plainly(alloc: Global, owner: Owner, text: &[u8]) -> Result<Trouble, AllocError>
    ensures { IfOk result (λ trouble. trouble ≡ refused_for owner text.now) }
{
    Ok(Trouble::Content(Content::plain(alloc, owner, text)?))
}

/// A refused content with a line or place.
pub fn at_place(
    alloc: Global,
    owner: Owner,
    text: &[u8],
    number: u64,
) -> Result<Trouble, AllocError>
    ensures { IfOk result (λ trouble. trouble ≡ refused_for owner (text.now ++ decimal number)) }
{
    Ok(Trouble::Content(Content::numbered(alloc, owner, text, number)?))
}

/// A refused content with a name.
pub fn with_name(
    alloc: Global,
    owner: Owner,
    text: &[u8],
    name: &[u8],
) -> Result<Trouble, AllocError>
    ensures { IfOk result (λ trouble. trouble ≡ refused_for owner (text.now ++ name.now)) }
{
    Ok(Trouble::Content(Content::named(alloc, owner, text, name)?))
}
