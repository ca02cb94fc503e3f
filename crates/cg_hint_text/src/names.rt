//! The nets and the registers that words name.

ghost use Rattle.std.specs.Prelude.{◌≡◌, Option, true, IfOk, MatchOption};
ghost use Rattle.cg_netlist.specs.Drivers.{IsDriver};
ghost use Rattle.cg_hint_text.specs.inner.Drivers.{named_register, ungated};
ghost use Rattle.cg_hint_text.specs.Reading.{literal_of, net_of, register_of};

use cg_machine::stage::NetLit;
use cg_net::id::{NetId, RegId};
use cg_netlist::driver::Driver;
use cg_netlist::netlist::Netlist;

/// A net that is driven so, unless it is the clock or a gated one.
fn ungated(driver: Driver, net: NetId) -> Option<NetId>
    ensures { result ≡ ungated driver net }
{
    match driver {
        Driver::Clock | Driver::Gater(_) => None,
        Driver::Input | Driver::Cell(_) | Driver::Register(..) => Some(net),
    }
}

/// The net of a name; the clock and the outputs of gating cells have none.
fn net_of(netlist: &Netlist, name: &[u8]) -> Option<NetId>
    ensures { result ≡ net_of netlist.now name.now }
{
    let _nets = netlist.nets();
    let net = netlist.find(name)?;
    ungated(netlist.driver(net), net)
}

/// The literal of a word: a net, or `!` and a net.
pub(crate) fn literal_of(netlist: &Netlist, word: &[u8]) -> Option<NetLit>
    ensures { result ≡ literal_of netlist.now word.now }
{
    if word.is_empty() {
        return None;
    }
    let inverted = word[0] == b'!';
    let name = if inverted { &word[1..] } else { word };
    let net = net_of(netlist, name)?;
    Some(NetLit { net, inverted })
}

/// The register that drives a net, where that is its first output.
fn named_register(netlist: &Netlist, driver: Driver, net: NetId) -> Option<RegId>
    requires { IsDriver netlist.now net driver }
    ensures { result ≡ named_register netlist.now driver net }
{
    let _nets = netlist.nets();
    match driver {
        Driver::Register(reg, _) => match netlist.register(reg).outputs.first() {
            Some(output) if output.0 == net => Some(reg),
            _ => None,
        },
        _ => None,
    }
}

/// The register of a name: its first output has it.
pub(crate) fn register_of(netlist: &Netlist, name: &[u8]) -> Option<RegId>
    ensures { result ≡ register_of netlist.now name.now }
{
    let _nets = netlist.nets();
    let net = netlist.find(name)?;
    named_register(netlist, netlist.driver(net), net)
}
