//! Places in 32 bits, so that more of them are near in memory.

ghost use Rattle.std.specs.Prelude.{◌≡◌, IfOk};

use std::alloc::AllocError;

/// A place in 32 bits. For one behind these, memory is wanting: the places before it would take 16 GiB.
pub(crate) fn narrow(place: usize) -> Result<u32, AllocError>
    ensures { IfOk result (λ narrow. narrow ≡ place) }
{
    if place > u32::MAX as usize {
        return Err(AllocError);
    }
    Ok(place as u32)
}
