//! The names of the nets of the gated netlist, in the machine's own order.

ghost use Rattle.std.specs.Prelude.{◌≡◌, ◌<◌, ◌+◌, ◌^◌, ◌++◌, ◌∷◌, [], map, decimal, length, List, ℕ, IfOk, OnOk};
ghost use Rattle.std.specs.List.{range_with_len};
ghost use Rattle.std.specs.Option.{option_copied, option_to_list};
ghost use Rattle.cg_insert.specs.inner.GatedParts.{gated_names};
ghost use Rattle.cg_netlist_telling.specs.Names.{bytes_of};
ghost use Rattle.cg_insert.specs.Insert.{enables_of};

use cg_cell::name::Name;
use cg_machine::machine::Machine;
use cg_netlist_telling::parts::NetlistNames;
use cg_text::number::push_number;
use std::alloc::{AllocError, Global};

/// The names of this machine's nets, of a test input and of as many gating cells as there are enables, in this order.
pub(crate) fn gated_names<'a>(
    alloc: Global,
    machine: &'a Machine,
    test: Option<&Name>,
    enables: usize,
) -> Result<NetlistNames<'a>, AllocError>
    requires { enables ≡ length (enables_of machine.now) }
    ensures { IfOk result (λ names. names ≡ gated_names (option_copied test.entry) machine.now) }
{
    let netlist = machine.netlist();
    let added = u64::from(machine.nets() - netlist.nets());
    let mut more = Vec::new(alloc);
    push_numbered(alloc, &mut more, machine.prefix(), 0, added)?;
    if let Some(test) = test {
        push_copy(alloc, &mut more, test.bytes())?;
    }
    push_numbered(alloc, &mut more, machine.prefix(), added, enables as u64)?;
    Ok(NetlistNames::with_more(netlist, more))
}

/// Puts a name behind others.
fn push_copy(alloc: Global, names: &mut Vec<Vec<u8>>, name: &[u8]) -> Result<(), AllocError>
    ensures { OnOk result (bytes_of names.new.items ≡ bytes_of names.old.items ++ name.now ∷ []) }
{
    let copy = Vec::from_slice(alloc, name)?;
    names.push(copy)?;
    Ok(())
}

/// Puts the names of `count` added nets behind others: the prefix and a number, from `first` on.
fn push_numbered(
    alloc: Global,
    names: &mut Vec<Vec<u8>>,
    prefix: &[u8],
    first: u64,
    count: u64,
) -> Result<(), AllocError>
    requires { first + count < 2 ^ 64 }
    ensures { OnOk result (bytes_of names.new.items ≡ bytes_of names.old.items ++ map (λ k. prefix.now ++ decimal k) (range_with_len first count)) }
{
    for k in 0..count {
        push_name(alloc, names, prefix, first + k)?;
    }
    Ok(())
}

/// Puts the name of one added net behind others.
fn push_name(
    alloc: Global,
    names: &mut Vec<Vec<u8>>,
    prefix: &[u8],
    number: u64,
) -> Result<(), AllocError>
    ensures { OnOk result (bytes_of names.new.items ≡ bytes_of names.old.items ++ (prefix.now ++ decimal number) ∷ []) }
{
    let mut name = Vec::from_slice(alloc, prefix)?;
    push_number(&mut name, number)?;
    names.push(name)?;
    Ok(())
}
