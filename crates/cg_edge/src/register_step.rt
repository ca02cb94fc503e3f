//! Which registers rise, and their next bits.

ghost use Rattle.std.specs.Prelude.{◌≡◌, ◌<◌, ◌≤◌, ◌&&◌, ℕ, List, Bool, false, not, length, map, replicate, slice_get, Some};
ghost use Rattle.cg_netlist.specs.Circuit.{RegisterCell, register_nets, shown_nets};
ghost use Rattle.cg_netlist.specs.History.{next_bit, next_value, rises};
ghost use Rattle.cg_netlist.specs.Moment.{bit, register_bits, shown_bits, values_at, zip_with};
ghost use Rattle.cg_edge.specs.inner.Keeping.{AreMarked, SameBut, walk_of};
ghost use Rattle.cg_edge.specs.inner.Kept.{IsSchedule};
ghost use Rattle.cg_edge.specs.inner.Stepped.{AllRise, AreStepped};

use crate::marks::Marks;
use crate::put::{put_given, put_register};
use crate::schedule::Schedule;
use cg_net::id::{NetId, RegId};

/// Moves each register whose clock net rose from the bits of nets `before` to those of `nets`, puts its bit at its output
/// nets, and tells which rose. No register is looked at whose clock net did not rise.
pub(crate) fn step(
    schedule: &Schedule<'_>,
    before: &[bool],
    nets: &mut [bool],
    state: &mut [bool],
    rose: &mut [bool],
    marks: &mut Marks,
)
    requires schedule { IsSchedule schedule.now }
    requires before { length before.now ≡ length schedule.now.netlist.now.names }
    requires nets { length nets.old ≡ length schedule.now.netlist.now.names }
    requires state { length state.old ≡ length schedule.now.netlist.now.registers }
    requires rose { length rose.old ≡ length schedule.now.netlist.now.registers }
    requires shown { values_at nets.old (register_nets schedule.now.netlist.now) ≡ register_bits schedule.now.netlist.now.registers state.old }
    requires marks { length marks.old ≡ length schedule.now.order.now }
    requires marked { AreMarked (walk_of schedule.now.netlist.now) marks.old nets.old }
    ensures state { state.new ≡ zip_with (next_bit before.now nets.old) schedule.now.netlist.now.registers state.old }
    ensures rose { rose.new ≡ map (rises before.now nets.old) schedule.now.netlist.now.registers }
    ensures shown { values_at nets.new (register_nets schedule.now.netlist.now) ≡ register_bits schedule.now.netlist.now.registers state.new }
    ensures same { SameBut (register_nets schedule.now.netlist.now) nets.old nets.new }
    ensures marked { AreMarked (walk_of schedule.now.netlist.now) marks.new nets.new }
    ensures long { length marks.new ≡ length marks.old }
{
    clear(rose);
    let mut first = 0;
    for run in schedule.runs.as_slice() {
        if rises(run.clock, before, nets) {
            move_run(schedule, first, run.end, before, nets, state, rose, marks);
        }
        first = run.end;
    }
}

/// Whether a net rises from the bits of nets `before` to those of `nets`.
fn rises(net: NetId, before: &[bool], nets: &[bool]) -> bool
    requires before { net < length before.now }
    requires nets { net < length nets.now }
    ensures { result ≡ (not (bit before.now net) && bit nets.now net) }
{
    let place = net.number() as usize;
    !before[place] && nets[place]
}

/// Makes all bits 0.
fn clear(bits: &mut [bool])
    ensures { bits.new ≡ replicate (length bits.old) false }
{
    for place in 0..bits.len() {
        bits[place] = false;
    }
}

/// Moves the registers from one number up to another, whose clock net rose, puts their bits at their output nets, and
/// tells that they rose.
fn move_run(
    schedule: &Schedule<'_>,
    first: u32,
    end: u32,
    before: &[bool],
    nets: &mut [bool],
    state: &mut [bool],
    rose: &mut [bool],
    marks: &mut Marks,
)
    requires schedule { IsSchedule schedule.now }
    requires order { first ≤ end }
    requires registers { end ≤ length schedule.now.netlist.now.registers }
    requires before { length before.now ≡ length schedule.now.netlist.now.names }
    requires nets { length nets.old ≡ length schedule.now.netlist.now.names }
    requires state { length state.old ≡ length schedule.now.netlist.now.registers }
    requires rose { length rose.old ≡ length schedule.now.netlist.now.registers }
    requires marks { length marks.old ≡ length schedule.now.order.now }
    requires marked { AreMarked (walk_of schedule.now.netlist.now) marks.old nets.old }
    ensures stepped { (now was : List Bool) → AllRise schedule.now.netlist.now before.now now first end
        → AreStepped schedule.now.netlist.now before.now now was first nets.old state.old rose.old
        → AreStepped schedule.now.netlist.now before.now now was end nets.new state.new rose.new }
    ensures marked { AreMarked (walk_of schedule.now.netlist.now) marks.new nets.new }
    ensures long { length marks.new ≡ length marks.old }
{
    for k in first..end {
        let place = k as usize;
        let bit = move_register(schedule, RegId::new(k), state[place], before, nets, marks);
        state[place] = bit;
        rose[place] = true;
    }
}

/// Moves a register that has this bit and whose clock net rose, and puts its next bit at its output nets. Answers that bit.
fn move_register(
    schedule: &Schedule<'_>,
    id: RegId,
    own: bool,
    before: &[bool],
    nets: &mut [bool],
    marks: &mut Marks,
) -> bool
    requires schedule { IsSchedule schedule.now }
    requires register { id < length schedule.now.netlist.now.registers }
    requires before { length before.now ≡ length schedule.now.netlist.now.names }
    requires nets { length nets.old ≡ length schedule.now.netlist.now.names }
    requires marks { length marks.old ≡ length schedule.now.order.now }
    requires marked { AreMarked (walk_of schedule.now.netlist.now) marks.old nets.old }
    ensures value { (r : RegisterCell ℕ ℕ) → slice_get schedule.now.netlist.now.registers id ≡ Some r → result ≡ next_value r.kind (values_at before.now r.inputs) own }
    ensures shown { (r : RegisterCell ℕ ℕ) → slice_get schedule.now.netlist.now.registers id ≡ Some r → values_at nets.new (shown_nets r) ≡ shown_bits r result }
    ensures same { (r : RegisterCell ℕ ℕ) → slice_get schedule.now.netlist.now.registers id ≡ Some r → SameBut (shown_nets r) nets.old nets.new }
    ensures marked { AreMarked (walk_of schedule.now.netlist.now) marks.new nets.new }
    ensures long { length marks.new ≡ length marks.old }
{
    let readers = &schedule.readers;
    match schedule.wires[id.number() as usize] {
        Some(wire) => {
            let bit = before[wire.input.number() as usize];
            put_given(schedule.netlist, readers, wire.output, bit, nets, marks);
            bit
        },
        None => {
            let bit = schedule.netlist.next_value(id, own, before);
            put_register(schedule.netlist, readers, id, bit, nets, marks);
            bit
        },
    }
}
