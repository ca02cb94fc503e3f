//! What those share who try one thing after another.

ghost use Rattle.std.specs.Prelude.{◌≡◌, ◌+◌, false, take, true, IfOk};

use std::alloc::AllocError;

/// The number of the next thing that is tried, counted from 1, where so many were tried. One that no `u32` holds is want of memory.
pub fn next_number(tried: usize) -> Result<u32, AllocError>
    ensures { IfOk result (λ number. number ≡ tried + 1) }
{
    let Ok(count) = u32::try_from(tried) else {
        return Err(AllocError);
    };
    count.checked_add(1).ok_or(AllocError)
}

/// Keeps what was put behind the first `count` items, or takes it back.
pub fn keep_where<T: Drop>(kept: bool, count: usize, items: &mut Vec<T>)
    ensures kept { kept ≡ true → items.new.items ≡ items.old.items }
    ensures taken_back { kept ≡ false → items.new.items ≡ take count items.old.items }
{
    if !kept {
        items.truncate(count);
    }
}
