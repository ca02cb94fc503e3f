//! Registers that take the bit of one net and show it at one net.

ghost use Rattle.std.specs.Prelude.{◌≡◌, ◌<◌, ◌∷◌, [], ℕ, List, Bool, false, length, slice_get, slice_index_or, Some, IfOk, IfSome};
ghost use Rattle.cg_netlist.specs.Circuit.{RegisterCell};
ghost use Rattle.cg_netlist.specs.History.{next_value};
ghost use Rattle.cg_netlist.specs.View.{kind_seen};
ghost use Rattle.cg_edge.specs.inner.Wires.{AreWires, IsWire};

use cg_cell::expr::Expr;
use cg_net::id::{NetId, RegId};
use cg_netlist::netlist::Netlist;
use cg_netlist::parts::RegKind;
use std::alloc::{AllocError, Global};

/// A register without its function: the net whose bit it takes, and the one net at which it shows its own.
///
/// Most registers are such. Why they are kept apart: a tick moves very many of them, and here they stand side by side in memory.
#[derive(Clone, Copy)]
pub(crate) struct Wire {
    pub(crate) input: NetId,
    pub(crate) output: NetId,
}

/// The registers of a netlist that are wires, each at its place.
pub(crate) fn wires(alloc: Global, netlist: &Netlist) -> Result<Vec<Option<Wire>>, AllocError>
    ensures { IfOk result (λ wires. AreWires netlist.now.registers (length netlist.now.registers) wires.items) }
{
    let mut wires = Vec::with_capacity(alloc, netlist.registers() as usize)?;
    for k in 0..netlist.registers() {
        wires.push(as_wire(netlist, RegId::new(k)))?;
    }
    Ok(wires)
}

/// A register as a wire, where it is one.
fn as_wire(netlist: &Netlist, id: RegId) -> Option<Wire>
    requires { id < length netlist.now.registers }
    ensures { (r : RegisterCell ℕ ℕ) → slice_get netlist.now.registers id ≡ Some r → IfSome result (IsWire r) }
{
    let register = netlist.register(id);
    let output = only_output(register.outputs)?;
    let place = variable(register.kind)?;
    let input = *register.inputs.get(place as usize)?;
    Some(Wire { input, output })
}

/// The net of the only output, where that shows the bit itself.
fn only_output(outputs: &[(NetId, bool)]) -> Option<NetId>
    ensures { IfSome result (λ net. outputs.now ≡ (net, false) ∷ []) }
{
    match outputs {
        [(net, false)] => Some(*net),
        _ => None,
    }
}

/// The place of the variable that is the function of a register, where there is one.
fn variable(kind: RegKind<'_>) -> Option<u32>
    ensures { IfSome result (λ place. (bits : List Bool) (own : Bool) → place < length bits → next_value (kind_seen kind.entry) bits own ≡ slice_index_or bits place false) }
{
    let RegKind::Cell(cell) = kind else {
        return Some(0);
    };
    match cell.function() {
        Some(Expr::Variable(place)) => Some(*place),
        _ => None,
    }
}
