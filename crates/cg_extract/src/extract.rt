//! A netlist without its gating cells, with the numbers that its nets get, and its machine, in which gating cells are enables.
//!
//! A netlist that has none is moved into its machine as it is, so it stands in memory once.

ghost use Rattle.std.specs.Prelude.{◌≡◌, IfOk, OnOk, ◌<◌, ℕ, None, Some, length, replicate, nat_eq, slice_get, [], ◌≤◌, ◌+◌, ◌^◌, true, slice_index_or};
ghost use Rattle.std.specs.Prelude.{unwrap_or};
ghost use Rattle.cg_extract.specs.Lifted.{CanExtract, HasNoTests, bare, chained, lifted, lifting, ungated, kept_nets, number_of, origins};
ghost use Rattle.cg_extract.specs.Reading.{read_of};
ghost use Rattle.cg_extract.specs.inner.Taking.{CanTake, IsEnableTable, IsTaken, entry_at, given, table_enables};
ghost use Rattle.cg_limit.specs.declared.TheConstants.{MOST_NETS};
ghost use Rattle.cg_machine.specs.Machine.{IsNet};
ghost use Rattle.cg_machine.specs.Run.{with_enables};
ghost use Rattle.cg_machine.specs.Start.{machine_of};
ghost use Rattle.std.specs.List.{IsDistinct};
ghost use Rattle.std.specs.Option.{option_to_list};
ghost use Rattle.cg_extract.specs.inner.BareParts.{bare_parts};
ghost use Rattle.cg_netlist_builder.specs.Building.{fresh};
ghost use Rattle.cg_netlist_telling.specs.NamedParts.{clocked_parts, with_clock};
ghost use Rattle.cg_netlist_telling.specs.Telling.{MayTell, WasTold, told};
ghost use Rattle.cg_netlist.specs.Circuit.{gater_outputs};
ghost use Rattle.cg_net.specs.NetSets.{is_in};
ghost use Rattle.cg_netlist.specs.Netlist.{IsNetlist};

use cg_cell::fit::FitKind;
use cg_cell::name::Name;
use cg_machine::machine::Machine;
use cg_net::id::{GateClockId, NetId, RegId};
use cg_netlist::fault::AddFault;
use cg_netlist::netlist::Netlist;
use cg_netlist::parts::RegView;
use cg_netlist_builder::builder::Builder;
use cg_netlist_telling::parts::{
    NetlistNames, clock_or_first, tell_cells, tell_clock, tell_inputs, tell_outputs, tell_register,
};
use std::alloc::{AllocError, Global};

/// A machine that was made of a netlist.
#[derive(Drop)]
pub struct Extracted {
    /// The machine: the netlist without its gating cells, whose registers have the enables of their gating cells.
    pub machine: Machine,

    /// The netlist, where it has gating cells. Where it has none, the machine has it as its own.
    pub kept: Option<Netlist>,
}

/// The machine of a netlist, to whose enables its gating cells are lifted.
///
/// No output of the netlist may stand twice, no net may have a name that begins with the prefix of the names of added nets, and no
/// gating cell may have a test pin. A chain of gating cells makes ands of two nets. `first_refused` is the test: where it finds
/// none, no gating cell has a test pin, and there is a cell for each and.
pub fn extract(alloc: Global, netlist: Netlist, prefix: &Name) -> Result<Extracted, AllocError>
    requires can { CanExtract netlist prefix.now }
    requires untested { HasNoTests netlist }
    ensures machine { IfOk result (λ made. made.machine ≡ lifted netlist prefix.now) }
    ensures kept { IfOk result (λ made. unwrap_or made.kept (bare netlist) ≡ netlist) }
    ensures once { IfOk result (λ made. netlist.gaters ≡ [] → made.kept ≡ None) }
{
    if netlist.gaters() == 0 {
        // Nothing is left out, and no net gets another number.
        of_ungated(alloc, netlist, prefix)
    } else {
        of_gated(alloc, netlist, prefix)
    }
}

/// The netlist of which a machine was made: the one that was kept beside it, or else the machine's own.
pub fn read_of<'a>(kept: &'a Option<Netlist>, machine: &'a Machine) -> &'a Netlist
    ensures { result.now ≡ read_of kept.now machine.now }
{
    match kept {
        Some(netlist) => netlist,
        None => machine.netlist(),
    }
}

/// The machine of a netlist that has no gating cells: it takes the netlist as it is.
fn of_ungated(alloc: Global, netlist: Netlist, prefix: &Name) -> Result<Extracted, AllocError>
    requires can { CanExtract netlist prefix.now }
    requires none { netlist.gaters ≡ [] }
    ensures machine { IfOk result (λ made. made.machine ≡ lifted netlist prefix.now) }
    ensures kept { IfOk result (λ made. unwrap_or made.kept (bare netlist) ≡ netlist) }
    ensures once { IfOk result (λ made. made.kept ≡ None) }
{
    let machine = Machine::of(alloc, netlist, prefix)?;
    Ok(Extracted {
        machine,
        kept: None,
    })
}

/// The machine of a netlist that has gating cells, with the netlist.
fn of_gated(alloc: Global, netlist: Netlist, prefix: &Name) -> Result<Extracted, AllocError>
    requires { CanExtract netlist prefix.now }
    ensures machine { IfOk result (λ made. made.machine ≡ lifted netlist prefix.now) }
    ensures kept { IfOk result (λ made. unwrap_or made.kept (bare netlist) ≡ netlist) }
{
    match lifted(alloc, &netlist, prefix) {
        Ok(machine) => Ok(Extracted {
            machine,
            kept: Some(netlist),
        }),
        Err(fault) => {
            // By a call, as its parts would else be dropped one by one in the proof; so too below.
            drop(netlist);
            Err(fault)
        }
    }
}

/// The machine of a netlist, made of the netlist without its gating cells.
fn lifted(alloc: Global, netlist: &Netlist, prefix: &Name) -> Result<Machine, AllocError>
    requires { CanExtract netlist.now prefix.now }
    ensures { IfOk result (λ machine. machine ≡ lifted netlist.now prefix.now) }
{
    let bare = bare(alloc, netlist)?;
    let mut machine = Machine::of(alloc, bare, prefix)?;
    match lift_enabled(alloc, netlist, &mut machine) {
        Ok(()) => Ok(machine),
        Err(fault) => {
            drop(machine);
            Err(fault)
        }
    }
}

/// Takes all gating cells of a netlist into the machine of the netlist without them, and gives its registers their enables.
fn lift_enabled(alloc: Global, netlist: &Netlist, machine: &mut Machine) -> Result<(), AllocError>
    requires can { CanExtract netlist.now machine.old.prefix }
    requires bare { machine.old ≡ machine_of (bare netlist.now) machine.old.prefix }
    ensures { OnOk result (machine.new ≡ lifted netlist.now machine.old.prefix) }
{
    let enables = lift(alloc, netlist, machine)?;
    set_enables(netlist, machine, &enables);
    Ok(())
}

/// Takes all gating cells of a netlist into the machine of the netlist without them, and answers for each net the enable of what
/// it clocks, which the outputs of gating cells have.
fn lift(
    alloc: Global,
    netlist: &Netlist,
    machine: &mut Machine,
) -> Result<Vec<Option<NetId>>, AllocError>
    requires can { CanExtract netlist.now machine.old.prefix }
    requires bare { machine.old ≡ machine_of (bare netlist.now) machine.old.prefix }
    ensures machine { IfOk result (λ _. machine.new ≡ (lifting netlist.now machine.old.prefix).machine) }
    ensures enables { IfOk result (λ enables. IsEnableTable netlist.now (lifting netlist.now machine.old.prefix).enables enables.items) }
{
    let order = netlist.gater_order(alloc)?;
    let mut enables = vec![in alloc; None; netlist.nets() as usize]?;
    for k in 0..order.len() {
        take(netlist, machine, &mut enables, order[k])?;
    }
    Ok(enables)
}

/// Takes a gating cell: its enable is put beside its output net.
fn take(
    netlist: &Netlist,
    machine: &mut Machine,
    enables: &mut [Option<NetId>],
    id: GateClockId,
) -> Result<(), AllocError>
    requires { CanTake netlist.now machine.old enables.old id }
    ensures { IfOk result (λ _. IsTaken netlist.now machine.old enables.old id machine.new enables.new) }
{
    let gater = netlist.gater(id);
    let parent = enables[gater.clock.number() as usize];
    let enable = chained(machine, parent, number(netlist, gater.enable))?;
    enables[gater.output.number() as usize] = Some(enable);
    Ok(())
}

/// The net that enables a gating cell: its own enable net, and where a gating cell drives its clock pin the and of that one's
/// enable and its own.
fn chained(machine: &mut Machine, parent: Option<NetId>, own: NetId) -> Result<NetId, AllocError>
    requires own { IsNet machine.old own }
    requires parent { (net : ℕ) → parent ≡ Some net → IsNet machine.old net }
    requires room { length machine.old.circuit.names < MOST_NETS }
    ensures { IfOk result (λ net. record { machine = machine.new; net = net } ≡ chained machine.old parent own) }
{
    let Some(parent) = parent else {
        return Ok(own);
    };
    machine
        .add_gate(FitKind::And2, &[parent, own])
        .map_err(|_| AllocError)
}

/// Gives each register the enable that stands beside its clock net, if one does.
fn set_enables(netlist: &Netlist, machine: &mut Machine, enables: &[Option<NetId>])
    requires nets { (net enable : ℕ) → entry_at enables.now net ≡ Some enable → IsNet machine.old enable }
    requires table { length enables.now ≡ length netlist.now.names }
    requires registers { machine.old.own_registers ≡ length netlist.now.registers }
    requires free { machine.old.enables ≡ replicate (length netlist.now.registers) None }
    ensures { machine.new ≡ with_enables machine.old (table_enables enables.now netlist.now.registers) }
{
    for number in 0..netlist.registers() {
        let id = RegId::new(number);
        let clock = netlist.register(id).clock;
        set_enable(machine, id, enables[clock.number() as usize]);
    }
}

/// Gives a register an enable, if there is one.
fn set_enable(machine: &mut Machine, reg: RegId, enable: Option<NetId>)
    requires register { reg < machine.old.own_registers }
    requires net { (net : ℕ) → enable ≡ Some net → IsNet machine.old net }
    ensures { machine.new ≡ with_enables machine.old (given machine.old.enables reg enable) }
{
    if let Some(net) = enable {
        machine.set_enable(reg, net);
    }
}

/// For each net of the machine the net of the netlist that it stands for, and nothing for an added one.
pub fn origins(
    alloc: Global,
    netlist: &Netlist,
    machine: &Machine,
) -> Result<Vec<Option<NetId>>, AllocError>
    requires { length (kept_nets netlist.now) ≤ length machine.now.circuit.names }
    ensures { IfOk result (λ nets. nets.items ≡ origins netlist.now machine.now) }
{
    let _netlist = machine.netlist();
    let mut nets = Vec::with_capacity(alloc, machine.nets() as usize)?;
    for number in 0..machine.nets() {
        nets.push(origin(netlist, number))?;
    }
    Ok(nets)
}

/// The number of a net that is kept: the outputs of gating cells stand side by side in net order, and those behind them move up.
pub fn number(netlist: &Netlist, net: NetId) -> NetId
    requires { is_in (kept_nets netlist.now) net ≡ true }
    ensures { result ≡ number_of netlist.now net }
{
    let gaters = netlist.gaters();
    if net.number() < first_gater_output(netlist) {
        net
    } else {
        NetId::new(net.number() - gaters)
    }
}

/// The net that has this number, if one does.
pub(crate) fn origin(netlist: &Netlist, number: u32) -> Option<NetId>
    requires { number < 2 ^ 31 }
    ensures { result ≡ slice_get (kept_nets netlist.now) number }
{
    let net = moved_back(netlist, number);
    if net < netlist.nets() {
        Some(NetId::new(net))
    } else {
        None
    }
}

/// The net that has this number, where one has it.
fn moved_back(netlist: &Netlist, number: u32) -> u32
    requires { number < 2 ^ 31 }
    ensures netlist { IsNetlist netlist.now }
    ensures low { number < slice_index_or (gater_outputs netlist.now) 0 0 → result ≡ number }
    ensures high { slice_index_or (gater_outputs netlist.now) 0 0 ≤ number → result ≡ number + length netlist.now.gaters }
{
    let gaters = netlist.gaters();
    if number < first_gater_output(netlist) {
        number
    } else {
        number + gaters
    }
}

/// The output of the first gating cell, or 0 where there is none.
fn first_gater_output(netlist: &Netlist) -> u32
    ensures { result ≡ slice_index_or (gater_outputs netlist.now) 0 0 }
{
    if netlist.gaters() == 0 {
        0
    } else {
        netlist.gater(GateClockId::new(0)).output.number()
    }
}

/// The netlist without its gating cells: its logic cells and registers in their order, every register on the clock, and all its
/// nets but the outputs of gating cells.
fn bare(alloc: Global, netlist: &Netlist) -> Result<Netlist, AllocError>
    requires { IsDistinct nat_eq netlist.now.outputs }
    ensures { IfOk result (λ kept. kept ≡ bare netlist.now) }
{
    let _nets = netlist.nets();
    // Its parts are those of a netlist, and no more than before: only memory can be wanting.
    let builder = told_builder(alloc, netlist).map_err(|_| AllocError)?;
    builder.finish().map_err(|_| AllocError)
}

/// A builder that was told all parts.
fn told_builder(alloc: Global, netlist: &Netlist) -> Result<Builder, AddFault>
    requires { IsDistinct nat_eq netlist.now.outputs }
    ensures { IfOk result (λ builder. builder ≡ told (fresh netlist.now.model) (bare_parts netlist.now.names netlist.now)) }
{
    let _nets = netlist.nets();
    let mut builder = Builder::new(alloc, netlist.model())?;
    let names = NetlistNames::of_netlist(alloc, netlist);
    match tell(alloc, &mut builder, &names, netlist) {
        Ok(()) => Ok(builder),
        Err(fault) => {
            // By a call, as its parts would else be dropped one by one in the proof.
            drop(builder);
            Err(fault)
        }
    }
}

/// Tells the parts in the order in which they are written.
fn tell(
    alloc: Global,
    builder: &mut Builder,
    names: &NetlistNames<'_>,
    netlist: &Netlist,
) -> Result<(), AddFault>
    requires { MayTell builder.old (bare_parts names.now netlist.now) }
    ensures { WasTold builder.old (bare_parts names.now netlist.now) builder.new result }
{
    tell_inputs(builder, names, netlist.inputs())?;
    tell_outputs(builder, names, netlist.outputs())?;
    tell_clock(builder, names, netlist.clock())?;
    tell_cells(alloc, builder, names, netlist)?;
    tell_registers(alloc, builder, names, netlist)
}

/// Tells the registers, each on the clock.
fn tell_registers(
    alloc: Global,
    builder: &mut Builder,
    names: &NetlistNames<'_>,
    netlist: &Netlist,
) -> Result<(), AddFault>
    requires { MayTell builder.old (clocked_parts names.now (ungated netlist.now).registers) }
    ensures { WasTold builder.old (clocked_parts names.now (ungated netlist.now).registers) builder.new result }
{
    let clock = clock_or_first(netlist);
    for number in 0..netlist.registers() {
        tell_on_clock(alloc, builder, names, netlist, RegId::new(number), clock)?;
    }
    Ok(())
}

/// Tells the register of this number, on this clock.
fn tell_on_clock(
    alloc: Global,
    builder: &mut Builder,
    names: &NetlistNames<'_>,
    netlist: &Netlist,
    reg: RegId,
    clock: NetId,
) -> Result<(), AddFault>
    requires register { reg < length netlist.now.registers }
    requires parts { MayTell builder.old (clocked_parts names.now (with_clock (Some clock) (option_to_list (slice_get netlist.now.registers reg)))) }
    ensures { WasTold builder.old
        (clocked_parts names.now (with_clock (Some clock) (option_to_list (slice_get netlist.now.registers reg)))) builder.new result }
{
    let register = netlist.register(reg);
    let on_clock = RegView { clock, ..register };
    tell_register(alloc, builder, names, on_clock, clock)
}
