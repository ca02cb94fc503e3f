//! The support of a register.

ghost use Rattle.std.specs.Prelude.{◌≡◌, ◌<◌, [], IfOk};
ghost use Rattle.cg_stage_groups.specs.Support.{IsSupport};

use crate::cone::cone;
use crate::edge::edge;
use cg_claim_reach::own::reads_own;
use cg_list::Seq;
use cg_machine::machine::Machine;
use cg_net::id::RegId;
use cg_net::net_set::NetSet;
use std::alloc::{AllocError, Global};

/// The support of a register.
#[derive(Debug, Drop)]
pub struct Support {
    /// Whether a data input is in it.
    pub has_input: bool,

    /// The registers in it, in no order; one may stand there twice.
    pub registers: Seq<RegId>,
}

/// The support of a register of a machine's netlist, with an empty set for the nets that are found.
pub(crate) fn support_of(
    alloc: Global,
    machine: &Machine,
    reg: RegId,
    found: &mut NetSet,
) -> Result<Support, AllocError>
    requires empty { found.old ≡ [] }
    requires register { reg < machine.now.own_registers }
    ensures { IfOk result (IsSupport machine.now reg) }
{
    let netlist = machine.netlist();
    let _registers = netlist.registers();
    cone(machine, netlist.register(reg).inputs, found)?;
    let mut support = edge(alloc, machine, found)?;
    if reads_own(netlist, reg) {
        support.registers.push(reg)?;
    }
    Ok(support)
}
