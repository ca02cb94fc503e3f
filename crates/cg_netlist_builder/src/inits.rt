//! Inits that plain registers are given behind all parts.

ghost use Rattle.std.specs.Prelude.{◌≡◌, length, map, slice_get, unwrap_or};
ghost use Rattle.std.specs.List.{All};
ghost use Rattle.std.specs.Option.{option_and_then};
ghost use Rattle.cg_net.specs.Names.{net_name};
ghost use Rattle.cg_netlist.specs.Circuit.{shown_nets};
ghost use Rattle.cg_netlist_builder.specs.Inits.{init_given, shown_plainly, with_init};
ghost use Rattle.cg_netlist_builder.specs.inner.Numbers.{OpenWithin};

use crate::parts::OpenRegister;
use cg_net::id::NetId;
use cg_net::names::NetNames;
use cg_netlist::parts::RegisterKind;

/// Gives each plain register the init of its net, where that is given one.
pub(crate) fn give_inits(
    names: &NetNames,
    registers: &mut [OpenRegister],
    nets: &NetNames,
    inits: &[u8],
)
    requires within { All (OpenWithin (length names.now)) registers.old }
    requires each { length inits.now ≡ length nets.now }
    ensures { registers.new ≡ map (with_init (λ net. init_given nets.now inits.now (net_name names.now net))) registers.old }
{
    for register in registers.iter_mut() {
        give_init(names, register, nets, inits);
    }
}

/// Gives a register the init of its net, if it is plain and the net is given one.
fn give_init(names: &NetNames, register: &mut OpenRegister, nets: &NetNames, inits: &[u8])
    requires within { OpenWithin (length names.now) register.old }
    requires each { length inits.now ≡ length nets.now }
    ensures { register.new ≡ with_init (λ net. init_given nets.now inits.now (net_name names.now net)) register.old }
{
    register.init = late_init(names, register, nets, inits);
}

/// The init of a register: that of its net, if it is plain and the net is given one.
fn late_init(names: &NetNames, register: &OpenRegister, nets: &NetNames, inits: &[u8]) -> u8
    requires within { OpenWithin (length names.now) register.now }
    requires each { length inits.now ≡ length nets.now }
    ensures { result ≡ (with_init (λ net. init_given nets.now inits.now (net_name names.now net)) register.now).init }
{
    match shown_plainly(register) {
        Some(net) => {
            let name = names.name(net.number() as usize);
            init_given(nets, inits, name).unwrap_or(register.init)
        }
        None => register.init,
    }
}

/// The net that a plain register shows.
fn shown_plainly(register: &OpenRegister) -> Option<NetId>
    ensures { result ≡ shown_plainly register.now.kind (shown_nets register.now) }
{
    match &register.kind {
        RegisterKind::Plain => first_shown(&register.outputs),
        RegisterKind::Flop(_) => None,
    }
}

/// The net of the first output.
fn first_shown(outputs: &[(NetId, bool)]) -> Option<NetId>
    ensures { result ≡ slice_get (map (λ output. output.0) outputs.now) 0 }
{
    match outputs.get(0) {
        Some(output) => Some(output.0),
        None => None,
    }
}

/// The init that a net is given.
#[tactic(auto, using(crate::proofs::InitsGiven::given_at, crate::proofs::InitsGiven::given_none))]
fn init_given(nets: &NetNames, inits: &[u8], net: &[u8]) -> Option<u8>
    requires { length inits.now ≡ length nets.now }
    ensures { result ≡ init_given nets.now inits.now net.now }
{
    let _different = nets.len();
    match nets.find(net) {
        Some(number) => Some(inits[number]),
        None => None,
    }
}
