//! How many masks have each bit.

ghost use Rattle.std.specs.Prelude.{◌≡◌, ◌<◌, ◌+◌, ◌^◌, ℕ, List, length, IfOk};
ghost use Rattle.std.specs.List.{All};
ghost use Rattle.cg_hold_widths.specs.inner.Counts.{AreCounts, count_at, ones};
ghost use Rattle.cg_hold_widths.specs.inner.Masks.{has_bit};

use std::alloc::{AllocError, Global};

/// How many of these masks have each of the 64 bits.
pub(crate) fn counts(alloc: Global, masks: &[u64]) -> Result<Vec<u64>, AllocError>
    ensures { IfOk result (λ counts. AreCounts masks.now counts.items) }
{
    let mut counts = vec![in alloc; 0; 64]?;
    for mask in masks {
        count(*mask, &mut counts);
    }
    Ok(counts)
}

/// Counts the bits of one more mask, from the lowest on.
fn count(mask: u64, counts: &mut [u64])
    requires long { length counts.old ≡ 64 }
    requires room { All (λ n. n + 1 < 2 ^ 64) counts.old }
    ensures { (i : ℕ) → i < 64 → count_at counts.new i ≡ count_at counts.old i + ones (has_bit i mask) }
{
    let mut rest = mask;
    while rest != 0 {
        let place = rest.trailing_zeros();
        counts[place as usize] += 1;
        rest &= !(1 << place);
    }
}
