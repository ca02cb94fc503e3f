//! Walks back over logic cells, from some nets to their cone.

ghost use Rattle.std.specs.Prelude.{◌≡◌, ◌<◌, ◌+◌, ◌++◌, ◌∷◌, [], ℕ, List, true, length, slice_get, take, Some, IfOk, OnOk};
ghost use Rattle.std.specs.List.{All, filter, range_with_len};
ghost use Rattle.cg_net.specs.NetSets.{is_in};
ghost use Rattle.cg_netlist_cone.specs.Cone.{cone_at, cone_of};
ghost use Rattle.cg_netlist.specs.Drivers.{IsDriver};
ghost use Rattle.cg_netlist.specs.Moment.{values_at};
ghost use Rattle.cg_netlist_cone.specs.inner.Reaching.{IsEdge, IsReached};

use crate::ascending::{ascending, net_ids, register_ids};
use crate::cone::Cone;
use crate::edge::Edge;
use crate::wiring::Wiring;
use cg_list::Seq;
use cg_net::id::{CellId, NetId};
use cg_net::net_set::NetSet;
use cg_netlist::driver::Driver;
use std::alloc::{AllocError, Global};

/// The cone of these nets, with an empty set for the nets that are found. It costs what it reaches, beside the set's marks.
pub fn reached_cone<W: Wiring>(
    alloc: Global,
    wiring: &W,
    roots: &[NetId],
    found: &mut NetSet,
) -> Result<Cone, AllocError>
    requires empty { found.old ≡ [] }
    requires roots { All (λ net. net < length (W.circuit wiring.now).names) roots.now }
    ensures { IfOk result (λ cone. cone ≡ cone_at (W.circuit wiring.now) (W.order wiring.now) roots.now) }
{
    let _nets = wiring.net_count();
    let edge = reach(alloc, wiring, roots, found)?;
    let cells = in_walk_order(alloc, wiring, edge.cells)?;
    let inputs = net_ids(alloc, edge.inputs)?;
    let registers = register_ids(alloc, edge.registers)?;
    Ok(Cone {
        cells,
        inputs,
        registers,
    })
}

/// Finds the nets of the cone of these nets, and what drives them.
fn reach<W: Wiring>(
    alloc: Global,
    wiring: &W,
    roots: &[NetId],
    found: &mut NetSet,
) -> Result<Edge, AllocError>
    requires empty { found.old ≡ [] }
    requires roots { All (λ net. net < length (W.circuit wiring.now).names) roots.now }
    ensures cone { OnOk result ((y : ℕ) → is_in found.new y ≡ is_in (cone_of (values_at (W.circuit wiring.now).cells (W.order wiring.now)) roots.now) y) }
    ensures edge { IfOk result (λ edge. IsEdge (W.circuit wiring.now) (W.order wiring.now) found.new edge.cells edge.inputs edge.registers) }
{
    let _nets = wiring.net_count();
    let mut edge = Edge::new(alloc);
    found.extend(roots)?;
    let mut next = 0;
    while next < found.len() {
        step(wiring, next, found, &mut edge)?;
        next += 1;
    }
    Ok(edge)
}

/// Notes what drives one of the nets that were found, and puts behind them the inputs of the logic cell that does.
fn step<W: Wiring>(
    wiring: &W,
    next: usize,
    found: &mut NetSet,
    edge: &mut Edge,
) -> Result<(), AllocError>
    requires next { next < length found.old }
    requires within { (y : ℕ) → is_in found.old y ≡ true → y < length (W.circuit wiring.now).names }
    ensures reached { OnOk result ((roots : List ℕ) → IsReached (W.circuit wiring.now) roots next found.old
        → IsReached (W.circuit wiring.now) roots (next + 1) found.new) }
    ensures edge { OnOk result (IsEdge (W.circuit wiring.now) (W.order wiring.now) (take next found.old) edge.old.cells edge.old.inputs edge.old.registers
        → IsEdge (W.circuit wiring.now) (W.order wiring.now) (take (next + 1) found.new) edge.new.cells edge.new.inputs edge.new.registers) }
{
    let _nets = wiring.net_count();
    let net = found.net(next);
    let driver = wiring.net_driver(net);
    meet(wiring, net, &driver, edge)?;
    spread(wiring, next, &driver, found)
}

/// Puts behind the nets that were found the inputs of the logic cell that drives one of them, where one does.
fn spread<W: Wiring>(
    wiring: &W,
    next: usize,
    driver: &Driver,
    found: &mut NetSet,
) -> Result<(), AllocError>
    requires next { next < length found.old }
    requires drives { (net : ℕ) → slice_get found.old next ≡ Some net → IsDriver (W.circuit wiring.now) net driver.now }
    ensures reached { OnOk result ((roots : List ℕ) → IsReached (W.circuit wiring.now) roots next found.old
        → IsReached (W.circuit wiring.now) roots (next + 1) found.new) }
    ensures kept { OnOk result (take (next + 1) found.new ≡ take (next + 1) found.old) }
{
    let _nets = wiring.net_count();
    match *driver {
        Driver::Cell(id) => found.extend(wiring.cell_inputs(id)),
        _ => Ok(()),
    }
}

/// Notes what drives one more net.
fn meet<W: Wiring>(
    wiring: &W,
    net: NetId,
    driver: &Driver,
    edge: &mut Edge,
) -> Result<(), AllocError>
    requires { IsDriver (W.circuit wiring.now) net driver.now }
    ensures { OnOk result ((nets : List ℕ) → IsEdge (W.circuit wiring.now) (W.order wiring.now) nets edge.old.cells edge.old.inputs edge.old.registers
        → IsEdge (W.circuit wiring.now) (W.order wiring.now) (nets ++ net ∷ []) edge.new.cells edge.new.inputs edge.new.registers) }
{
    let _nets = wiring.net_count();
    match *driver {
        Driver::Input => edge.inputs.push(net.number()),
        Driver::Cell(id) => edge.cells.push(wiring.cell_place(id)),
        Driver::Register(reg, _) => edge.registers.push(reg.number()),
        Driver::Clock => Ok(()),
        Driver::Gater(_) => Ok(()),
    }
}

/// The logic cells at these places of the order, each once and in order.
fn in_walk_order<W: Wiring>(
    alloc: Global,
    wiring: &W,
    places: Seq<u32>,
) -> Result<Seq<CellId>, AllocError>
    requires { (p : ℕ) → is_in places p ≡ true → p < length (W.order wiring.now) }
    ensures { IfOk result (λ cells. cells ≡ values_at (W.order wiring.now) (filter (is_in places) (range_with_len 0 (length (W.order wiring.now))))) }
{
    let places = ascending(places.into_vec());
    let mut cells = Seq::from_vec(Vec::with_capacity(alloc, places.len())?);
    for place in &places {
        cells.push(wiring.cell_in_place(*place))?;
    }
    Ok(cells)
}
