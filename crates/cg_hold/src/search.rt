//! What hold stages are looked for on, and what is looked at.

use crate::cycles::Cycles;
use cg_machine::machine::Machine;
use cg_machine::stage::NetLit;
use cg_net::id::RegId;
use cg_netlist_cone::cone::Cone;
use cg_stage_list_laws::net_zeros::NetZeros;

/// What hold stages are looked for on: a machine, cycles of it, how wide a claim may be, and how often the nets are 0 on a stimulus,
/// where there is one.
#[derive(Clone, Copy)]
pub(crate) struct Search<'a> {
    pub machine: &'a Machine,
    pub cycles: &'a Cycles,
    pub width: u32,
    pub counts: Option<&'a NetZeros<'a>>,
}

/// A register without an enable of the netlist that is searched, with the nets of the cone of its inputs in net order, that
/// cone, and the literals in the order in which they are tried.
#[derive(Clone, Copy)]
pub(crate) struct Look<'a> {
    pub search: &'a Search<'a>,
    pub reg: RegId,
    pub nets: &'a [u32],
    pub cone: &'a Cone,
    pub literals: &'a [NetLit],
}
