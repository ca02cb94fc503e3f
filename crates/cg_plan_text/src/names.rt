//! The names of nets, registers and outputs of a machine, behind a text.

ghost use Rattle.std.specs.Prelude.{◌≡◌, ◌++◌, ◌∷◌, decimal, OnOk};
ghost use Rattle.cg_machine.specs.Added.{first_output};
ghost use Rattle.cg_plan_text.specs.Words.{literal_word, named_word, net_word, output_word, register_net, register_word};

use cg_machine::machine::Machine;
use cg_machine::stage::NetLit;
use cg_net::id::{NetId, RegId};
use cg_text::number::push_number;
use std::alloc::AllocError;

/// Puts a word behind a text and a space.
pub fn push_word(text: &mut Vec<u8>, word: &[u8]) -> Result<(), AllocError>
    ensures { OnOk result (text.new.items ≡ text.old.items ++ 32 ∷ word.now) }
{
    text.push(b' ')?;
    text.extend_from_slice(word)
}

/// Puts a number behind a text and a space.
pub fn push_count(text: &mut Vec<u8>, number: u64) -> Result<(), AllocError>
    ensures { OnOk result (text.new.items ≡ text.old.items ++ 32 ∷ decimal number) }
{
    text.push(b' ')?;
    push_number(text, number)
}

/// Puts the name of a net behind a text, and nothing where there is no such net.
#[tactic(auto, using(crate::proofs::NetNames::net_names))]
pub fn push_net(text: &mut Vec<u8>, machine: &Machine, net: NetId) -> Result<(), AllocError>
    ensures { OnOk result (text.new.items ≡ text.old.items ++ net_word machine.now net) }
{
    if net.number() >= machine.nets() {
        return Ok(());
    }
    let prefix = machine.prefix();
    let netlist = machine.netlist();
    match machine.added(net) {
        None => text.extend_from_slice(netlist.name(net)),
        Some(place) => push_numbered(text, prefix, place),
    }
}

/// Puts a prefix and a number behind a text.
fn push_numbered(text: &mut Vec<u8>, prefix: &[u8], number: u32) -> Result<(), AllocError>
    ensures { OnOk result (text.new.items ≡ text.old.items ++ (prefix.now ++ decimal number)) }
{
    text.extend_from_slice(prefix)?;
    push_number(text, u64::from(number))
}

/// Puts the name of a net behind a text, where there is one.
fn push_named(text: &mut Vec<u8>, machine: &Machine, net: Option<NetId>) -> Result<(), AllocError>
    ensures { OnOk result (text.new.items ≡ text.old.items ++ named_word machine.now net) }
{
    match net {
        None => Ok(()),
        Some(net) => push_net(text, machine, net),
    }
}

/// The net that names a register.
fn register_net(machine: &Machine, reg: RegId) -> Option<NetId>
    ensures { result ≡ register_net machine.now reg }
{
    if reg.number() >= machine.registers() {
        return None;
    }
    let netlist = machine.netlist();
    if machine.is_delay(reg) {
        return Some(machine.delay(reg).1);
    }
    first_output(netlist.register(reg).outputs)
}

fn first_output(outputs: &[(NetId, bool)]) -> Option<NetId>
    ensures { result ≡ first_output outputs.now }
{
    match outputs.first() {
        None => None,
        Some(output) => Some(output.0),
    }
}

/// Puts the name of a register behind a text.
pub fn push_register(text: &mut Vec<u8>, machine: &Machine, reg: RegId) -> Result<(), AllocError>
    ensures { OnOk result (text.new.items ≡ text.old.items ++ register_word machine.now reg) }
{
    push_named(text, machine, register_net(machine, reg))
}

/// Puts the name of the output at a place behind a text.
pub fn push_output(text: &mut Vec<u8>, machine: &Machine, place: u32) -> Result<(), AllocError>
    ensures { OnOk result (text.new.items ≡ text.old.items ++ output_word machine.now place) }
{
    let outputs = machine.netlist().outputs();
    push_named(text, machine, outputs.get(place as usize).copied())
}

/// Puts the name of a literal behind a text.
pub fn push_literal(
    text: &mut Vec<u8>,
    machine: &Machine,
    literal: NetLit,
) -> Result<(), AllocError>
    ensures { OnOk result (text.new.items ≡ text.old.items ++ literal_word machine.now literal) }
{
    if literal.inverted {
        text.push(b'!')?;
    }
    push_net(text, machine, literal.net)
}
