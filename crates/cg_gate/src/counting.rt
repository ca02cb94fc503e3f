//! How often the nets of a netlist's machine are 0, as the netlist shows it.

ghost use Rattle.std.specs.Prelude.{◌≡◌, ◌≤◌, ◌<◌, List, length, map, slice_index_or, IfOk, IfSome};
ghost use Rattle.std.specs.List.{All};
ghost use Rattle.cg_extract.specs.Lifted.{kept_nets, origins};
ghost use Rattle.cg_gate.specs.ZeroCounting.{zeros_by};
ghost use Rattle.cg_netlist.specs.History.{Moment};
ghost use Rattle.cg_report.specs.Zeros.{low_moments, zeros_of};
ghost use Rattle.cg_stimulus.specs.Inputs.{IsFor};
ghost use Rattle.cg_stimulus.specs.Played.{IsPlayed};

use cg_extract::extract::origins;
use cg_machine::machine::Machine;
use cg_net::id::NetId;
use cg_netlist::netlist::Netlist;
use cg_report::zeros::row_zero_counts;
use cg_stimulus::played::one_played_history;
use cg_stimulus::stimulus::Stimulus;
use std::alloc::{AllocError, Global};

/// For each net of a machine the number of rows at whose low moment it is 0: that of the net of the netlist from which it comes,
/// or 0 where it was added.
pub(crate) fn machine_zeros(
    alloc: Global,
    netlist: &Netlist,
    machine: &Machine,
    stimulus: &Stimulus,
) -> Result<Vec<u32>, AllocError>
    requires stimulus { IsFor netlist.now stimulus.now }
    requires machine { length (kept_nets netlist.now) ≤ length machine.now.circuit.names }
    ensures most { IfOk result (λ zeros. All (λ n. n ≤ length stimulus.now.rows) zeros.items) }
    ensures zeros { IfOk result (λ zeros. (history : List Moment) × IsPlayed netlist.now stimulus.now.rows history
        × (zeros.items ≡ map (zeros_by (λ net. zeros_of net (low_moments history))) (origins netlist.now machine.now))) }
{
    let _nets = netlist.nets();
    let origin = origins(alloc, netlist, machine)?;
    origin_zeros(alloc, netlist, &origin, stimulus)
}

/// For each of these nets the number of rows at whose low moment it is 0, or 0 where there is none.
fn origin_zeros(
    alloc: Global,
    netlist: &Netlist,
    origin: &[Option<NetId>],
    stimulus: &Stimulus,
) -> Result<Vec<u32>, AllocError>
    requires stimulus { IsFor netlist.now stimulus.now }
    requires origin { All (λ o. IfSome o (λ net. net < length netlist.now.names)) origin.now }
    ensures most { IfOk result (λ zeros. All (λ n. n ≤ length stimulus.now.rows) zeros.items) }
    ensures zeros { IfOk result (λ zeros. (history : List Moment) × IsPlayed netlist.now stimulus.now.rows history
        × (zeros.items ≡ map (zeros_by (λ net. zeros_of net (low_moments history))) origin.now)) }
{
    one_played_history(netlist, stimulus);
    let zeros = row_zero_counts(alloc, netlist, stimulus)?;
    carried(alloc, &zeros, origin)
}

/// The counts of a netlist's nets, carried to the nets that come from them.
fn carried(alloc: Global, zeros: &[u32], origin: &[Option<NetId>]) -> Result<Vec<u32>, AllocError>
    requires { All (λ o. IfSome o (λ net. net < length zeros.now)) origin.now }
    ensures { IfOk result (λ counts. counts.items ≡ map (zeros_by (λ net. slice_index_or zeros.now net 0)) origin.now) }
{
    let mut counts = Vec::with_capacity(alloc, origin.len())?;
    for net in origin {
        counts.push(count_of(zeros, *net))?;
    }
    Ok(counts)
}

/// The count of the net from which a net comes, or 0 where it comes from none.
fn count_of(zeros: &[u32], origin: Option<NetId>) -> u32
    requires { IfSome origin (λ net. net < length zeros.now) }
    ensures { result ≡ zeros_by (λ net. slice_index_or zeros.now net 0) origin }
{
    match origin {
        Some(net) => zeros[net.number() as usize],
        None => 0,
    }
}
