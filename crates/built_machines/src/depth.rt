//! How many logic cells lead to a net.

ghost use Rattle.std.specs.Prelude.{◌≡◌, ◌<◌, ◌≤◌, length, IfOk};
ghost use Rattle.std.specs.List.{All};
ghost use Rattle.cg_netlist.specs.Netlist.{widest_of};

use crate::nets::net_named;
use cg_machine::machine::Machine;
use cg_net::id::NetId;
use cg_netlist_cone::cone::Cone;
use cg_text::number::push_number;
use std::alloc::Global;

/// How many logic cells and added gates the net of this name stands on, and how many of them are on the longest way to it, where
/// these are no more than a number that is spelled; else how many were looked at before that was seen.
pub fn depth_text(alloc: Global, machine: &Machine, most: &str, net: &str) -> Result<Vec<u8>, ()> {
    let most = most.parse::<u32>().map_err(|_| ())?;
    let net = net_named(machine, net)?;
    depth_at(alloc, machine, net, most)
}

/// The same of a net.
fn depth_at(alloc: Global, machine: &Machine, net: NetId, most: u32) -> Result<Vec<u8>, ()>
    requires { net < length machine.now.circuit.names }
{
    let cone = cone(machine, net)?;
    let mut depths = Vec::new(alloc);
    depths
        .resize(machine.nets() as usize, 0u32)
        .map_err(|_| ())?;
    let mut scratch = Vec::new(alloc);
    scratch
        .resize(machine.widest() as usize, 0u32)
        .map_err(|_| ())?;
    let mut seen = 0;
    let tried = walk(
        machine,
        &cone,
        &mut seen,
        depths.as_mut_slice(),
        scratch.as_mut_slice(),
        most,
    );
    let mut text = Vec::new(alloc);
    push_number(&mut text, u64::from(seen)).map_err(|_| ())?;
    match tried {
        Ok(()) => {
            text.push(b' ').map_err(|_| ())?;
            push_number(&mut text, u64::from(depths[net.number() as usize])).map_err(|_| ())?;
            text.push(b'\n').map_err(|_| ())?;
        }
        Err(()) => text.extend_from_slice(b" too deep\n").map_err(|_| ())?,
    }
    Ok(text)
}

/// The cone of a net.
fn cone(machine: &Machine, net: NetId) -> Result<Cone, ()>
    requires { net < length machine.now.circuit.names }
    ensures { IfOk result (λ cone. All (λ k. k < length machine.now.circuit.cells) cone.cells) }
{
    match machine.cone(&[net]) {
        Ok(cone) => Ok(cone),
        Err(_) => Err(()),
    }
}

/// Walks over a cone: at each cell it puts one more than the greatest depth of its inputs, and counts the cell.
fn walk(
    machine: &Machine,
    cone: &Cone,
    seen: &mut u32,
    depths: &mut [u32],
    scratch: &mut [u32],
    most: u32,
) -> Result<(), ()>
    requires cells { All (λ k. k < length machine.now.circuit.cells) cone.now.cells }
    requires depths { length depths.old ≡ length machine.now.circuit.names }
    requires scratch { widest_of machine.now.circuit.cells ≤ length scratch.old }
{
    machine.try_walk(
        cone,
        seen,
        depths,
        scratch,
        &|seen: &mut u32, _cell, inputs: &[u32]| {
            *seen = seen.saturating_add(1);
            deeper(inputs, most)
        },
    )
}

/// One more than the greatest of these, if that is no more than `most`.
fn deeper(depths: &[u32], most: u32) -> Result<u32, ()> {
    let greatest = depths.iter().copied().max().unwrap_or(0);
    if greatest < most {
        Ok(greatest + 1)
    } else {
        Err(())
    }
}
