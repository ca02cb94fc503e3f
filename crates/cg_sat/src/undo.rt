//! The trail, cut.

ghost use Rattle.std.specs.Prelude.{◌≡◌, ℕ, ◌≤◌, length, take, Some, OnOk};
ghost use Rattle.std.specs.List.{slice_get};
ghost use Rattle.cg_sat_state.specs.declared.trail.Entry.{Entry};
ghost use Rattle.cg_formula.specs.Assignments.{IsUnassigned};
ghost use Rattle.cg_sat_state.specs.Trail.{lits_of};

use cg_sat_guide::order::Order;
use cg_sat_state::trail::Trail;
use std::alloc::AllocError;

/// Takes back the literals behind a place.
pub fn cut_to(trail: &mut Trail, order: &mut Order, place: usize) -> Result<(), AllocError>
    requires within { place ≤ length trail.old }
    requires open { (i : ℕ) (entry : Entry) → slice_get trail.old i ≡ Some entry → IsUnassigned (lits_of (take i trail.old)) entry.lit }
    ensures { OnOk result (trail.new ≡ take place trail.old) }
{
    'cut: while trail.len() > place {
        let Some(entry) = trail.pop() else {
            unreachable!();
        };
        order.save(entry.lit);
        order.put(entry.lit.variable)?;
    }
    Ok(())
}
