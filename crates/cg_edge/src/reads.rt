//! How often logic cells read a net.

ghost use Rattle.std.specs.Prelude.{◌≡◌, ◌+◌, ◌<◌, ◌≤◌, ℕ, length, nat_eq, slice_index_or, IfOk, OnOk};
ghost use Rattle.std.specs.List.{All, count_by};
ghost use Rattle.cg_netlist.specs.Nets.{walk_order};
ghost use Rattle.cg_edge.specs.inner.Keeping.{walk_of};
ghost use Rattle.cg_edge.specs.inner.Reads.{reads};

use crate::narrow::narrow;
use cg_net::id::{CellId, NetId};
use cg_netlist::netlist::Netlist;
use std::alloc::{AllocError, Global};

/// For each net how often it is an input of the logic cells of a netlist, whose order this is.
pub(crate) fn reads(
    alloc: Global,
    netlist: &Netlist,
    order: &[CellId],
) -> Result<Vec<u32>, AllocError>
    requires { order.now ≡ walk_order netlist.now.cells }
    ensures long { IfOk result (λ counts. length counts.items ≡ length netlist.now.names) }
    ensures reads { IfOk result (λ counts. (x : ℕ) → x < length netlist.now.names → reads x (walk_of netlist.now) ≤ slice_index_or counts.items x 0) }
{
    let mut counts = vec![in alloc; 0; netlist.nets() as usize]?;
    for place in 0..order.len() {
        count(netlist.cell(order[place]).inputs, &mut counts)?;
    }
    Ok(counts)
}

/// Counts one more at each of these nets.
fn count(inputs: &[NetId], counts: &mut Vec<u32>) -> Result<(), AllocError>
    requires { All (λ net. net < length counts.old.items) inputs.now }
    ensures long { length counts.new.items ≡ length counts.old.items }
    ensures more { OnOk result ((x : ℕ) → x < length counts.old.items
        → slice_index_or counts.old.items x 0 + count_by (nat_eq x) inputs.now ≤ slice_index_or counts.new.items x 0) }
{
    for net in inputs {
        let number = net.number() as usize;
        counts[number] = narrow(counts[number] as usize + 1)?;
    }
    Ok(())
}
