//! The netlist of a machine's enables: all its parts, told to a builder.

ghost use Rattle.std.specs.Prelude.{◌≡◌, ◌≤◌, ◌+◌, length, None, Some, IfOk, MatchResult, ◌∷◌, []};
ghost use Rattle.std.specs.Option.{option_copied, option_to_list};
ghost use Rattle.cg_insert.specs.Insert.{CanInsert, enables_of, first_gater_output, inserted, insertion_limit};
ghost use Rattle.cg_insert.specs.Inserting.{IsWhole, RunsAs, StaysWritable, insertion};
ghost use Rattle.cg_insert.specs.inner.GatedParts.{gated_names, gated_parts};
ghost use Rattle.cg_limit.specs.Answers.{OrNoMemory};
ghost use Rattle.cg_limit.specs.declared.Limit.TheVariants.{Nets};
ghost use Rattle.cg_netlist.specs.declared.fault.AddFault.TheVariants.{Limit as LimitFault, NoMemory};
ghost use Rattle.cg_netlist_builder.specs.Building.{fresh};
ghost use Rattle.cg_netlist_telling.specs.NamedParts.{clock_parts, input_parts, output_parts};
ghost use Rattle.cg_netlist_telling.specs.Telling.{WasTold, told, MayTell};

use crate::clocked::{Enables, Gating, first_gater_output, tell_gaters, tell_registers, test_net};
use crate::logic::tell_gates;
use crate::names::gated_names;
use cg_cell::library::Library;
use cg_cell::name::Name;
use cg_limit::{Limit, MOST_NETS};
use cg_machine::machine::Machine;
use cg_net::id::NetId;
use cg_netlist::fault::AddFault;
use cg_netlist::netlist::Netlist;
use cg_netlist_builder::builder::Builder;
use cg_netlist_parts::fault::NetFault;
use cg_netlist_telling::parts::{
    NetlistNames, tell_cells, tell_clock, tell_input, tell_inputs, tell_outputs,
};
use std::alloc::Global;

/// The netlist of a machine: each enable has a gating cell, in the order of the first register that has it, whose output is
/// the clock of its registers. With a test name the inputs end in one of that name, and each gating cell's test pin is on it.
///
/// The library must have a cell for each added gate, and where there is an enable one that gates a clock, with a test pin
/// where a test name is given. The test name must be new, also among the names of the outputs of the gating cells.
///
/// It is refused by `Limit(Nets)` exactly where there would be more than 1,048,576 nets.
pub fn insert(
    alloc: Global,
    machine: &Machine,
    library: &Library,
    test: Option<&Name>,
) -> Result<Netlist, AddFault>
    requires { CanInsert library.now (option_copied test) machine.now }
    ensures answer { OrNoMemory NoMemory (λ netlist. netlist) result (insertion library.now (option_copied test.entry) machine.now) }
    ensures whole { IfOk result (λ netlist. IsWhole netlist) }
    ensures runs { IfOk result (λ netlist. RunsAs library.now (option_copied test.entry) machine.now netlist) }
    ensures writable { IfOk result (λ netlist. StaysWritable library.now machine.now netlist) }
{
    let netlist = machine.netlist();
    let _own = netlist.nets();
    let _cells = library.len();
    let enables = Enables::of(alloc, machine)?;
    if first_gater_output(machine, test) as usize + enables.len() > MOST_NETS {
        return Err(AddFault::Limit(Limit::Nets));
    }
    let gating = Gating {
        machine,
        enables: &enables,
        library,
        test,
    };
    let builder = told_builder(alloc, &gating)?;
    match builder.finish() {
        Ok(netlist) => Ok(netlist),
        Err(fault) => Err(wanting(fault)),
    }
}

/// A builder that was told all parts.
fn told_builder(alloc: Global, gating: &Gating<'_>) -> Result<Builder, AddFault>
    requires can { CanInsert gating.now.library.now (option_copied gating.now.test) gating.now.machine.now }
    requires enables { gating.now.enables.now ≡ enables_of gating.now.machine.now }
    requires small { insertion_limit (option_copied gating.now.test) gating.now.machine.now ≡ None }
    ensures { MatchResult result
        (λ builder. builder ≡ told (fresh gating.now.machine.now.circuit.model)
        (gated_parts (gated_names (option_copied gating.now.test) gating.now.machine.now) gating.now.library.now (option_copied gating.now.test) gating.now.machine.now))
        (λ fault. fault ≡ NoMemory) }
{
    let mut builder = Builder::new(alloc, gating.machine.netlist().model())?;
    match tell_named(alloc, &mut builder, gating) {
        Ok(()) => Ok(builder),
        Err(fault) => {
            // By a call, as its parts would else be dropped one by one in the proof.
            drop(builder);
            Err(fault)
        }
    }
}

/// Tells all parts to a builder that was told nothing, by names that are made for them.
fn tell_named(alloc: Global, builder: &mut Builder, gating: &Gating<'_>) -> Result<(), AddFault>
    requires can { CanInsert gating.now.library.now (option_copied gating.now.test) gating.now.machine.now }
    requires enables { gating.now.enables.now ≡ enables_of gating.now.machine.now }
    requires small { insertion_limit (option_copied gating.now.test) gating.now.machine.now ≡ None }
    requires empty { builder.old ≡ fresh gating.now.machine.now.circuit.model }
    ensures { WasTold builder.old
        (gated_parts (gated_names (option_copied gating.now.test) gating.now.machine.now) gating.now.library.now (option_copied gating.now.test) gating.now.machine.now) builder.new result }
{
    let netlist = gating.machine.netlist();
    let _own = netlist.nets();
    let names = gated_names(alloc, gating.machine, gating.test, gating.enables.len())?;
    tell(alloc, builder, &names, gating)
}

/// Want of memory, where a fault stands for nothing else.
fn wanting(fault: NetFault) -> AddFault
    requires { fault ≡ NetFault.NoMemory }
    ensures { result ≡ NoMemory }
{
    match fault {
        NetFault::NoMemory => AddFault::NoMemory,
        _ => unreachable!(),
    }
}

/// Tells the parts in the order in which they are written: the inputs with the test input last, the outputs, the clock, the
/// netlist's own logic cells, the added gates, the gating cells, and the registers with the delay registers last.
fn tell(
    alloc: Global,
    builder: &mut Builder,
    names: &NetlistNames<'_>,
    gating: &Gating<'_>,
) -> Result<(), AddFault>
    requires can { CanInsert gating.now.library.now (option_copied gating.now.test) gating.now.machine.now }
    requires enables { gating.now.enables.now ≡ enables_of gating.now.machine.now }
    requires parts { MayTell builder.old (gated_parts names.now gating.now.library.now (option_copied gating.now.test) gating.now.machine.now) }
    ensures { WasTold builder.old (gated_parts names.now gating.now.library.now (option_copied gating.now.test) gating.now.machine.now) builder.new result }
{
    let netlist = gating.machine.netlist();
    tell_inputs(builder, names, netlist.inputs())?;
    tell_test(builder, names, test_net(gating.machine, gating.test))?;
    tell_outputs(builder, names, netlist.outputs())?;
    tell_clock(builder, names, netlist.clock())?;
    tell_cells(alloc, builder, names, netlist)?;
    tell_gates(alloc, builder, names, gating.machine, gating.library)?;
    tell_gaters(builder, names, gating)?;
    tell_registers(alloc, builder, names, gating)
}

/// Tells the test input, if there is one.
fn tell_test(
    builder: &mut Builder,
    names: &NetlistNames<'_>,
    test: Option<NetId>,
) -> Result<(), AddFault>
    requires { MayTell builder.old (input_parts names.now (option_to_list test)) }
    ensures { WasTold builder.old (input_parts names.now (option_to_list test)) builder.new result }
{
    match test {
        Some(net) => tell_input(builder, names, net),
        None => Ok(()),
    }
}
