//! How a netlist is to be gated.

ghost use Rattle.std.specs.Prelude.{◌≡◌, ◌<◌, ◌||◌, ℕ, Some, is_some, length};
ghost use Rattle.std.specs.Option.{option_copied};
ghost use Rattle.cg_gate_laws.specs.Gated.{first_gater, has_and, refused_gater};
ghost use Rattle.cg_run.specs.Verdict.{Answers};
ghost use Rattle.cg_machine.specs.Start.{begins, first_clash};
ghost use Rattle.cg_net.specs.Names.{is_known};
ghost use Rattle.cg_tool.specs.Wanted.{gateable, request_by, unlifted, unprefixed, untested};

use cg_cell::fit::FitKind;
use cg_cell::library::Library;
use cg_cell::name::Name;
use cg_command_line::Asked;
use cg_extract::refused::first_refused;
use cg_gate::request::Request;
use cg_hint_laws::hint::Hint;
use cg_list::Seq;
use cg_machine::machine::prefix_clash;
use cg_net::id::GateClockId;
use cg_netlist::netlist::Netlist;
use cg_plan_laws::settings::Settings;
use cg_run::{Owner, Trouble};
use cg_source::design::Demand;
use cg_source::refused::with_name;
use cg_stimulus::stimulus::Stimulus;
use std::alloc::Global;

/// How a netlist is to be gated.
#[derive(Debug, Drop)]
pub struct Wanted {
    /// What the names of added nets begin with.
    pub prefix: Name,

    /// The name of the test input, where there is to be one.
    pub test: Option<Name>,

    /// What bounds the plan, and whether its proofs are kept.
    pub settings: Settings,

    /// Which further files are asked for.
    pub asked: Asked,
}

impl Wanted {
    /// How a netlist is to be gated; gating cells have a test input exactly where one is named, and proofs are kept exactly where a file
    /// of them is asked for.
    pub fn new(prefix: Name, test: Option<Name>, settings: Settings, asked: Asked) -> Wanted
        ensures { result ≡ record {
          prefix = prefix;
          test = test;
          settings = record settings { test = is_some test; proof = asked.proof };
          asked = asked;
        } }
    {
        let settings = Settings {
            test: test.is_some(),
            proof: asked.proof,
            ..settings
        };
        Wanted {
            prefix,
            test,
            settings,
            asked,
        }
    }

    /// What gating is asked for, with these cells, and this stimulus and these hints, where there are some.
    pub fn request<'a>(
        &'a self,
        library: &'a Library,
        stimulus: Option<&'a Stimulus>,
        hints: Option<&'a Seq<Hint>>,
    ) -> Request<'a>
        ensures { result ≡ request_by library.entry.now self.entry.now (option_copied stimulus.entry) (option_copied hints.entry) }
    {
        Request {
            library,
            settings: &self.settings,
            prefix: &self.prefix,
            test: self.test.as_ref(),
            stimulus,
            hints,
            report: self.asked.report,
            verilog: self.asked.verilog,
            registers: self.asked.registers,
        }
    }
}

impl Demand for Wanted {
    ghost use Rattle.cg_tool.specs.Wanted.{gateable};

    ghost permits = { gateable };

    /// The netlist, where it may be gated so.
    fn permit(
        &self,
        alloc: Global,
        netlist: Netlist,
        library: &Library,
    ) -> Result<Netlist, Trouble> {
        gateable(alloc, netlist, library, self)
    }
}

/// The netlist, where it may be gated so.
fn gateable(
    alloc: Global,
    netlist: Netlist,
    library: &Library,
    wanted: &Wanted,
) -> Result<Netlist, Trouble>
    ensures { Answers (gateable library.now wanted.now netlist) result }
{
    let netlist = unprefixed(alloc, netlist, &wanted.prefix)?;
    let netlist = untested(alloc, netlist, wanted)?;
    let refused = refused_gater(&netlist, library, wanted.test.as_ref());
    unlifted(alloc, netlist, refused)
}

/// The netlist, unless a net's name begins with the prefix.
fn unprefixed(alloc: Global, netlist: Netlist, prefix: &Name) -> Result<Netlist, Trouble>
    ensures { Answers (unprefixed netlist (first_clash prefix.now netlist.names)) result }
{
    match prefix_clash(&netlist, prefix) {
        None => Ok(netlist),
        Some(net) => {
            let name = netlist.name(net);
            let result = with_name(alloc, Owner::Netlist, b"netlist: prefix taken ", name);
            // By a call, here and below, as its parts would else be dropped one by one in the proof.
            drop(netlist);
            Err(result?)
        }
    }
}

/// The netlist, unless a net has the name of the test input, or may come to have it.
fn untested(alloc: Global, netlist: Netlist, wanted: &Wanted) -> Result<Netlist, Trouble>
    ensures { Answers (untested wanted.now.prefix wanted.now.test netlist) result }
{
    match &wanted.test {
        None => Ok(netlist),
        Some(test) => free(alloc, netlist, &wanted.prefix, test),
    }
}

/// The netlist, unless this name of a test input is taken.
fn free(alloc: Global, netlist: Netlist, prefix: &Name, test: &Name) -> Result<Netlist, Trouble>
    ensures { Answers (untested prefix.now (Some test.now) netlist) result }
{
    if is_taken(&netlist, prefix, test) {
        return Err(with_name(alloc, Owner::Netlist, b"netlist: test taken ", test.bytes())?);
    }
    Ok(netlist)
}

/// Whether a net has the name of the test input, or may come to have it.
fn is_taken(netlist: &Netlist, prefix: &Name, test: &Name) -> bool
    ensures { result ≡ (is_known netlist.now.names test.now || begins prefix.now test.now) }
{
    is_known(netlist, test) || test.bytes().starts_with(prefix.bytes())
}

/// Whether a net has this name.
fn is_known(netlist: &Netlist, name: &Name) -> bool
    ensures { result ≡ is_known netlist.now.names name.now }
{
    match netlist.find(name.bytes()) {
        None => false,
        Some(_) => true,
    }
}

/// The first gating cell with which a netlist is not gated: with a test input the first of all; without one the first that is not
/// lifted with the cells of the library.
fn refused_gater(netlist: &Netlist, library: &Library, test: Option<&Name>) -> Option<GateClockId>
    ensures { result ≡ refused_gater library.now (option_copied test.entry) netlist.now }
{
    match test {
        None => first_refused(netlist, has_and(library)),
        Some(_) => first_gater(netlist),
    }
}

/// Whether a library has a cell for the and of two nets.
fn has_and(library: &Library) -> bool
    ensures { result ≡ has_and library.now }
{
    library.fit(FitKind::And2).is_some()
}

/// The first gating cell, if there is one.
fn first_gater(netlist: &Netlist) -> Option<GateClockId>
    ensures { result ≡ first_gater netlist.now.gaters }
{
    if netlist.gaters() == 0 {
        return None;
    }
    Some(GateClockId::new(0))
}

/// The netlist, unless this gating cell is refused.
fn unlifted(
    alloc: Global,
    netlist: Netlist,
    refused: Option<GateClockId>,
) -> Result<Netlist, Trouble>
    requires { (gater : ℕ) → refused ≡ Some gater → gater < length netlist.gaters }
    ensures { Answers (unlifted netlist refused) result }
{
    let _gaters = netlist.gaters();
    let Some(gater) = refused else {
        return Ok(netlist);
    };
    let output = netlist.gater(gater).output;
    let name = netlist.name(output);
    let result = with_name(alloc, Owner::Netlist, b"netlist: gating cell ", name);
    drop(netlist);
    Err(result?)
}
