//! Names, each escaped.

ghost use Rattle.std.specs.Prelude.{◌≡◌, ◌++◌, ◌∷◌, ◌<◌, ℕ, OnOk, length, map};
ghost use Rattle.cg_net.specs.Names.{net_name};
ghost use Rattle.cg_netlist_placed.specs.Within.{AreNets, IsNet};
ghost use Rattle.cg_verilog_text.specs.Written.{name_text, names_text};
ghost use Rattle.cg_verilog_out.specs.Pieces.{more_names};

use cg_net::id::NetId;
use cg_netlist::netlist::Netlist;
use std::alloc::AllocError;

/// Appends an escaped name and its blank.
pub(crate) fn push_name(out: &mut Vec<u8>, name: &[u8]) -> Result<(), AllocError>
    ensures { OnOk result (out.new.items ≡ out.old.items ++ name_text name.now) }
{
    out.push(b'\\')?;
    out.extend_from_slice(name)?;
    out.push(b' ')?;
    Ok(())
}

/// Appends the name of a net, which must be one of the netlist's.
fn push_net(out: &mut Vec<u8>, netlist: &Netlist, net: NetId) -> Result<(), AllocError>
    requires { IsNet netlist.now net }
    ensures { OnOk result (out.new.items ≡ out.old.items ++ name_text (net_name netlist.now.names net)) }
{
    push_name(out, netlist.name(net))
}

/// Appends the names of nets, each behind a comma.
#[tactic(auto, using(crate::proofs::PieceLemmas::names))]
fn push_more_nets(out: &mut Vec<u8>, netlist: &Netlist, nets: &[NetId]) -> Result<(), AllocError>
    requires { AreNets netlist.now nets.now }
    ensures { OnOk result (out.new.items ≡ out.old.items ++ more_names (map (net_name netlist.now.names) nets.now)) }
{
    'nets: for net in nets {
        out.extend_from_slice(b", ")?;
        push_net(out, netlist, *net)?;
    }
    Ok(())
}

/// Appends the names of nets with a comma between each two.
pub(crate) fn push_nets(
    out: &mut Vec<u8>,
    netlist: &Netlist,
    nets: &[NetId],
) -> Result<(), AllocError>
    requires { AreNets netlist.now nets.now }
    ensures { OnOk result (out.new.items ≡ out.old.items ++ names_text (map (net_name netlist.now.names) nets.now)) }
{
    match nets.split_first() {
        None => Ok(()),
        Some((first, more)) => push_first_nets(out, netlist, *first, more),
    }
}

/// Appends the name of a net, and those of others with a comma between each two.
#[tactic(auto, using(crate::proofs::PieceLemmas::names))]
fn push_first_nets(
    out: &mut Vec<u8>,
    netlist: &Netlist,
    first: NetId,
    more: &[NetId],
) -> Result<(), AllocError>
    requires { AreNets netlist.now (first ∷ more.now) }
    ensures { OnOk result (out.new.items ≡ out.old.items ++ names_text (map (net_name netlist.now.names) (first ∷ more.now))) }
{
    push_net(out, netlist, first)?;
    push_more_nets(out, netlist, more)
}
