//! The literals of a register in the order in which they are tried, and the one that it takes.

ghost use Rattle.std.specs.Prelude.{◌≡◌, ◌<◌, ℕ, Some, None, true, false, if◌then◌else◌, drop, length, nat_lt, slice_get, IfErr, IfOk, OnOk, ◌≤◌, map};
ghost use Rattle.std.specs.Option.{option_copied};
ghost use Rattle.cg_claim.specs.Question.{hold_question};
ghost use Rattle.cg_hold.specs.inner.Choosing.{choice_by, refused_choice};
ghost use Rattle.cg_hold.specs.inner.Cycles.{AreCycles};
ghost use Rattle.cg_hold.specs.inner.Looking.{AreMarked, IsLook};
ghost use Rattle.cg_limit.specs.Answers.{OrNoMemory};
ghost use Rattle.cg_stage_list_laws.specs.HoldList.{serves};
ghost use Rattle.cg_stage_list_laws.specs.Literals.{FitZeroCounts, literals_of, AreZeroCounts, both_literals, by_count};
ghost use Rattle.cg_machine.specs.Claims.{Literal};
ghost use Rattle.cg_machine.specs.Machine.{enable_of};
ghost use Rattle.cg_netlist.specs.declared.fault.AddFault.TheVariants.{NoMemory};
ghost use Rattle.cg_unroll.specs.Holding.{IsHolding};
ghost use Rattle.std.specs.List.{All};
ghost use Rattle.cg_hold.specs.inner.Packed.{packed, unpacked};
ghost use Rattle.cg_stage_list_laws.specs.Supports.{in_net_order, input_cone};
ghost use Rattle.cg_net.specs.NetSets.{is_in};

use crate::search::{Look, Search};
use crate::trial::{Trial, Trier, marks_of};
use cg_machine::machine::Machine;
use cg_machine::stage::NetLit;
use cg_net::id::{NetId, RegId};
use cg_netlist::fault::AddFault;
use cg_netlist_cone::ascending::ascending;
use cg_stage_groups::finder::SupportFinder;
use cg_stage_list_laws::net_zeros::NetZeros;
use cg_unroll::claim::ClaimFault;
use std::alloc::{AllocError, Global};

/// What comes of a register.
#[derive(Clone, Copy)]
pub(crate) enum Choice {
    /// Its hold claims are too wide.
    Wide,

    /// It takes this literal, or none.
    Takes(Option<NetLit>),
}

/// What comes of a register of a machine's netlist that has no enable: it takes the first of its literals that serves.
pub(crate) fn choose(
    alloc: Global,
    trier: &mut Trier,
    search: &Search<'_>,
    reg: RegId,
) -> Result<Choice, AddFault>
    requires register { reg < search.now.machine.now.own_registers }
    requires free { enable_of search.now.machine.now reg ≡ None }
    requires counts { FitZeroCounts search.now.machine.now (option_copied search.now.counts) }
    requires cycles { AreCycles search.now.machine.now search.now.cycles.now.cycles }
    ensures { OrNoMemory NoMemory (λ choice. choice) result
        (choice_by search.now.machine.now search.now.width reg (literals_of search.now.machine.now (option_copied search.now.counts) reg)) }
{
    let _netlist = search.machine.netlist();
    let wide = trier.shows_wide(search.machine, reg, search.width)?;
    if wide {
        return Ok(Choice::Wide);
    }
    let nets = nets_of(search.machine, reg, &mut trier.finder)?;
    let literals = literals_of(alloc, search.machine, &nets, search.counts)?;
    if literals.is_empty() {
        return Ok(without_literals(search.width));
    }
    let cone = trier.cone_of(search.machine, reg)?;
    let look = Look {
        search,
        reg,
        nets: &nets,
        cone: &cone,
        literals: &literals,
    };
    choose_by_looking(alloc, trier, &look)
}

/// What comes of a register without literals: its claims have one leaf, its own bit.
fn without_literals(width: u32) -> Choice
    ensures { result ≡ (if nat_lt width 1 then Choice.Wide else Choice.Takes None) }
{
    if width < 1 {
        Choice::Wide
    } else {
        Choice::Takes(None)
    }
}

/// What comes of a register whose literals are some: cycles mark those that do not hold it, and claims decide the others.
fn choose_by_looking(alloc: Global, trier: &mut Trier, look: &Look<'_>) -> Result<Choice, AddFault>
    requires look { IsLook look.now.search.now.machine.now look.now.reg look.now.nets.now look.now.cone.now look.now.literals.now }
    requires some { 0 < length look.now.literals.now }
    requires cycles { AreCycles look.now.search.now.machine.now look.now.search.now.cycles.now.cycles }
    ensures { OrNoMemory NoMemory (λ choice. choice) result (choice_by look.now.search.now.machine.now look.now.search.now.width look.now.reg look.now.literals.now) }
{
    let mut marks = marks_of(alloc, look)?;
    choose_marked(trier, look, &mut marks)
}

/// What comes of a register with literals of which these are known not to hold it: cycles of its cone mark others.
fn choose_marked(trier: &mut Trier, look: &Look<'_>, marks: &mut [bool]) -> Result<Choice, AddFault>
    requires look { IsLook look.now.search.now.machine.now look.now.reg look.now.nets.now look.now.cone.now look.now.literals.now }
    requires some { 0 < length look.now.literals.now }
    requires cycles { AreCycles look.now.search.now.machine.now look.now.search.now.cycles.now.cycles }
    requires marks { AreMarked look.now.search.now.machine.now look.now.reg look.now.literals.now marks.old }
    ensures { OrNoMemory NoMemory (λ choice. choice) result (choice_by look.now.search.now.machine.now look.now.search.now.width look.now.reg look.now.literals.now) }
{
    trier.mark_by_rounds(look, marks)?;
    choose_among(trier, look, marks)
}

/// What comes of a register with literals that are marked so.
fn choose_among(trier: &mut Trier, look: &Look<'_>, marks: &mut [bool]) -> Result<Choice, AddFault>
    requires look { IsLook look.now.search.now.machine.now look.now.reg look.now.nets.now look.now.cone.now look.now.literals.now }
    requires some { 0 < length look.now.literals.now }
    requires cycles { AreCycles look.now.search.now.machine.now look.now.search.now.cycles.now.cycles }
    requires marks { AreMarked look.now.search.now.machine.now look.now.reg look.now.literals.now marks.old }
    ensures { OrNoMemory NoMemory (λ choice. choice) result (choice_by look.now.search.now.machine.now look.now.search.now.width look.now.reg look.now.literals.now) }
{
    let _netlist = look.search.machine.netlist();
    match trier
        .claims
        .start(look.search.machine, look.reg, look.search.width)
    {
        Ok(()) => first_that_serves(trier, look, marks),
        Err(fault) => refused(fault),
    }
}

/// What comes of a register all of whose hold claims are refused so.
fn refused(fault: ClaimFault) -> Result<Choice, AddFault>
    ensures { result ≡ refused_choice fault }
{
    match fault {
        ClaimFault::Wide(_) => Ok(Choice::Wide),
        ClaimFault::Limit(limit) => Err(AddFault::Limit(limit)),
        ClaimFault::NoMemory => Err(AddFault::NoMemory),
    }
}

/// What comes of a register whose hold claims are being built: it takes the first of its literals that serves.
fn first_that_serves(
    trier: &mut Trier,
    look: &Look<'_>,
    marks: &mut [bool],
) -> Result<Choice, AddFault>
    requires look { IsLook look.now.search.now.machine.now look.now.reg look.now.nets.now look.now.cone.now look.now.literals.now }
    requires some { 0 < length look.now.literals.now }
    requires cycles { AreCycles look.now.search.now.machine.now look.now.search.now.cycles.now.cycles }
    requires marks { AreMarked look.now.search.now.machine.now look.now.reg look.now.literals.now marks.old }
    requires holding { IsHolding look.now.search.now.machine.now look.now.reg look.now.search.now.width trier.old.claims }
    ensures { OrNoMemory NoMemory (λ choice. choice) result (choice_by look.now.search.now.machine.now look.now.search.now.width look.now.reg look.now.literals.now) }
{
    for place in 0..look.literals.len() {
        let literal = look.literals[place];
        match trier.look_at(look, marks, place)? {
            Trial::TooWide => return Ok(Choice::Wide),
            Trial::Serves => return Ok(Choice::Takes(Some(literal))),
            Trial::Fails => {}
        }
    }
    Ok(Choice::Takes(None))
}

// More than the places of all literals: two for each net that a netlist may have.
const PLACES: u64 = 2_097_152;

/// The literals of these nets, each plain and inverted, in the order in which they are tried: those before the others that are 0
/// on more rows of the stimulus.
pub(crate) fn literals_of(
    alloc: Global,
    machine: &Machine,
    nets: &[u32],
    counts: Option<&NetZeros<'_>>,
) -> Result<Vec<NetLit>, AllocError>
    requires counts { FitZeroCounts machine.now (option_copied counts) }
    requires order { nets.now ≡ in_net_order machine.now nets.now }
    ensures { IfOk result (λ literals. literals.items ≡ by_count (option_copied counts.entry) (both_literals nets.now)) }
{
    match counts {
        Some(counts) => ranked(alloc, machine, nets, counts),
        None => both(alloc, nets),
    }
}

/// The nets of the cone of a register's inputs, in net order.
pub(crate) fn nets_of(
    machine: &Machine,
    reg: RegId,
    finder: &mut SupportFinder,
) -> Result<Vec<u32>, AllocError>
    requires { reg < machine.now.own_registers }
    ensures order { IfOk result (λ nets. nets.items ≡ in_net_order machine.now (input_cone machine.now reg)) }
    ensures same { IfOk result (λ nets. (y : ℕ) → is_in nets.items y ≡ is_in (input_cone machine.now reg) y) }
{
    let netlist = machine.netlist();
    let _registers = netlist.registers();
    let found = finder.cone(machine, netlist.register(reg).inputs)?;
    Ok(ascending(found))
}

/// Each net plain and then inverted.
fn both(alloc: Global, nets: &[u32]) -> Result<Vec<NetLit>, AllocError>
    ensures { IfOk result (λ literals. literals.items ≡ both_literals nets.now) }
{
    let mut literals = Vec::new(alloc);
    for number in nets {
        let net = NetId::new(*number);
        literals.push(NetLit {
            net,
            inverted: false,
        })?;
        literals.push(NetLit {
            net,
            inverted: true,
        })?;
    }
    Ok(literals)
}

/// Each net plain and inverted, those before the others that are 0 on more rows; those that are 0 as often stay in net order,
/// plain before inverted.
fn ranked(
    alloc: Global,
    machine: &Machine,
    nets: &[u32],
    counts: &NetZeros<'_>,
) -> Result<Vec<NetLit>, AllocError>
    requires counts { AreZeroCounts machine.now counts.now }
    requires order { nets.now ≡ in_net_order machine.now nets.now }
    ensures { IfOk result (λ literals. literals.items ≡ by_count (Some counts.now) (both_literals nets.now)) }
{
    let _netlist = machine.netlist();
    let mut numbers = packed_all(alloc, nets, counts)?;
    numbers.sort_unstable();
    numbers.dedup();
    unpacked_all(alloc, &numbers)
}

/// The numbers of the literals of these nets.
fn packed_all(alloc: Global, nets: &[u32], counts: &NetZeros<'_>) -> Result<Vec<u64>, AllocError>
    requires most { All (λ zeros. zeros ≤ counts.now.rows) counts.now.zeros }
    requires nets { (y : ℕ) → is_in nets.now y ≡ true → y < length counts.now.zeros }
    ensures { IfOk result (λ numbers. numbers.items ≡ map (packed counts.now) (both_literals nets.now)) }
{
    let mut numbers = Vec::new(alloc);
    for net in nets {
        numbers.push(pack(*net, false, counts))?;
        numbers.push(pack(*net, true, counts))?;
    }
    Ok(numbers)
}

/// The number of a literal: its rank, which is less where it is 0 on more rows, before its place.
fn pack(net: u32, inverted: bool, counts: &NetZeros<'_>) -> u64
    requires most { All (λ zeros. zeros ≤ counts.now.rows) counts.now.zeros }
    requires net { net < length counts.now.zeros }
    ensures { result ≡ packed counts.now (net, inverted) }
{
    let zeros = counts.zeros[net as usize];
    let others = counts.rows - zeros;
    if inverted {
        zeros as u64 * PLACES + (2 * net as u64 + 1)
    } else {
        others as u64 * PLACES + 2 * net as u64
    }
}

/// The literals of these numbers.
fn unpacked_all(alloc: Global, numbers: &[u64]) -> Result<Vec<NetLit>, AllocError>
    ensures { IfOk result (λ literals. literals.items ≡ map unpacked numbers.now) }
{
    let mut literals = Vec::new(alloc);
    for number in numbers {
        literals.push(unpack(*number))?;
    }
    Ok(literals)
}

/// The literal of a number.
fn unpack(number: u64) -> NetLit
    ensures { result ≡ unpacked number }
{
    let place = number % PLACES;
    NetLit {
        net: NetId::new((place / 2) as u32),
        inverted: place % 2 == 1,
    }
}
