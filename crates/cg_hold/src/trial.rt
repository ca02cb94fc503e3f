//! What comes of one literal: some cycle shows that it does not hold the register, which marks tell, or its claims decide.

ghost use Rattle.std.specs.Prelude.{◌≡◌, ◌<◌, ◌∷◌, [], ℕ, Some, if◌then◌else◌, IfErr, IfOk, OnOk, false, length, nat_lt, slice_get, true};
ghost use Rattle.cg_claim.specs.LeafBits.{is_never};
ghost use Rattle.cg_claim.specs.Question.{hold_question, idle_question};
ghost use Rattle.cg_claim_reach.specs.Reached.{IsConeOf};
ghost use Rattle.cg_hold.specs.inner.Choosing.{IdleFits, IsLiteralOf, refused_trial, trial_of};
ghost use Rattle.cg_hold.specs.inner.Cycles.{AreCycles};
ghost use Rattle.cg_hold.specs.inner.Looking.{AreMarked, IsLook, AreConeCycles};
ghost use Rattle.cg_limit.specs.Answers.{OrNoMemory};
ghost use Rattle.cg_machine.specs.Claims.{Literal};
ghost use Rattle.cg_stage_list_laws.specs.HoldList.{hold_width, serves};
ghost use Rattle.cg_stage_list_laws.specs.Supports.{input_cone};
ghost use Rattle.cg_netlist.specs.declared.fault.AddFault.TheVariants.{NoMemory};
ghost use Rattle.cg_unroll.specs.Holding.{IsHolding, TellsClaim};

use crate::cone_cycles::ConeCycles;
use crate::search::{Look, Search};
use cg_claim::laws::claim_laws;
use cg_decide::Decider;
use cg_machine::cone::ConeFinder;
use cg_machine::machine::Machine;
use cg_machine::stage::NetLit;
use cg_net::id::RegId;
use cg_netlist::fault::AddFault;
use cg_netlist_cone::cone::Cone;
use cg_stage_groups::finder::SupportFinder;
use cg_stage_list_laws::laws::list_laws;
use cg_unroll::claim::ClaimFault;
use cg_unroll::hold::HoldClaims;
use cg_unroll::unroller::Unroller;
use std::alloc::{AllocError, Global};

/// What comes of a literal that is looked at for a register.
#[derive(Clone, Copy)]
pub(crate) enum Trial {
    /// The hold claims of the register are too wide.
    TooWide,

    /// The register holds its bit where the literal is 0, and the literal can be 0.
    Serves,

    /// One of the two is not so.
    Fails,
}

/// What tries literals one after another, in buffers that are kept.
#[derive(Drop)]
pub(crate) struct Trier {
    /// What finds the literals.
    pub finder: SupportFinder,

    /// The hold claims of the register that is looked at.
    pub claims: HoldClaims,

    unroller: Unroller,
    decider: Decider,
    cones: ConeFinder,
    cycles: ConeCycles,

    /// The literal that a claim showed last to be 0 somewhere, and the bits of the unroller's leaves at which it is.
    idle: Option<NetLit>,
    idle_bits: Vec<bool>,
}

impl Trier {
    /// With empty buffers.
    pub fn new(alloc: Global) -> Trier {
        Trier {
            finder: SupportFinder::new(alloc),
            claims: HoldClaims::new(alloc),
            unroller: Unroller::new(alloc),
            decider: Decider::new(alloc),
            cones: ConeFinder::new(alloc),
            cycles: ConeCycles::new(alloc),
            idle: None,
            idle_bits: Vec::new(alloc),
        }
    }

    /// Whether it is soon seen that the hold claims of a register are too wide: their leaves are the register, and the data
    /// inputs and registers at the edge of the cone of its inputs.
    pub fn shows_wide(
        &mut self,
        machine: &Machine,
        reg: RegId,
        width: u32,
    ) -> Result<bool, AllocError>
        requires { reg < machine.now.own_registers }
        ensures { IfOk result (λ wide. wide ≡ true → nat_lt width (hold_width machine.now reg) ≡ true) }
    {
        let _netlist = machine.netlist();
        let more = self.finder.shows_more(machine, reg, width)?;
        Ok(more)
    }

    /// What comes of the literal at a place, of a register whose hold claims are being built. What its claim tells is marked; that of
    /// a literal with a mark is built only where it may be refused.
    pub fn look_at(
        &mut self,
        look: &Look<'_>,
        marks: &mut [bool],
        place: usize,
    ) -> Result<Trial, AddFault>
        requires look { IsLook look.now.search.now.machine.now look.now.reg look.now.nets.now look.now.cone.now look.now.literals.now }
        requires cycles { AreCycles look.now.search.now.machine.now look.now.search.now.cycles.now.cycles }
        requires marks { AreMarked look.now.search.now.machine.now look.now.reg look.now.literals.now marks.old }
        requires holding { IsHolding look.now.search.now.machine.now look.now.reg look.now.search.now.width self.old.claims }
        requires place { place < length look.now.literals.now }
        ensures trial { (l : Literal) → slice_get look.now.literals.now place ≡ Some l
            → OrNoMemory NoMemory (λ trial. trial) result (trial_of look.now.search.now.machine.now look.now.search.now.width look.now.reg l) }
        ensures marks { OnOk result (AreMarked look.now.search.now.machine.now look.now.reg look.now.literals.now marks.new) }
        ensures holding { OnOk result (IsHolding look.now.search.now.machine.now look.now.reg look.now.search.now.width self.new.claims) }
    {
        list_laws();
        let _netlist = look.search.machine.netlist();
        let marked = marks[place];
        if marked && self.claims.has_room() {
            return Ok(Trial::Fails);
        }
        let literal = look.literals[place];
        match self
            .claims
            .claim(look.search.machine, literal, look.reg, look.search.width)
        {
            Ok(()) => {
                if marked {
                    return Ok(Trial::Fails);
                }
                let good = self.serves(look, marks, literal)?;
                Ok(tried(good))
            }
            Err(fault) => refused(fault),
        }
    }

    /// Whether a literal serves whose hold claim was built last. The bits that violate this claim, and bits near to them, mark literals.
    fn serves(
        &mut self,
        look: &Look<'_>,
        marks: &mut [bool],
        literal: NetLit,
    ) -> Result<bool, AllocError>
        requires look { IsLook look.now.search.now.machine.now look.now.reg look.now.nets.now look.now.cone.now look.now.literals.now }
        requires cycles { AreCycles look.now.search.now.machine.now look.now.search.now.cycles.now.cycles }
        requires marks { AreMarked look.now.search.now.machine.now look.now.reg look.now.literals.now marks.old }
        requires literal { IsLiteralOf look.now.search.now.machine.now look.now.reg literal }
        requires claim { TellsClaim look.now.search.now.machine.now (hold_question literal look.now.reg) look.now.search.now.width self.old.claims.claim }
        ensures good { IfOk result (λ good. good ≡ serves look.now.search.now.machine.now look.now.reg literal) }
        ensures marks { OnOk result (AreMarked look.now.search.now.machine.now look.now.reg look.now.literals.now marks.new) }
        ensures claims { self.new.claims ≡ self.old.claims }
    {
        claim_laws();
        let _netlist = look.search.machine.netlist();
        let found = self.decider.find(self.claims.aig(), self.claims.goal())?;
        match found {
            Some(bits) => {
                self.mark_near(look, &bits, marks)?;
                Ok(false)
            }
            None => {
                let stays = self.is_never_idle(look, literal)?;
                Ok(!stays)
            }
        }
    }

    /// Whether a literal is never 0, where the claim that it can be is within its limit.
    fn is_never_idle(&mut self, look: &Look<'_>, literal: NetLit) -> Result<bool, AllocError>
        requires look { IsLook look.now.search.now.machine.now look.now.reg look.now.nets.now look.now.cone.now look.now.literals.now }
        requires cycles { AreCycles look.now.search.now.machine.now look.now.search.now.cycles.now.cycles }
        requires literal { IsLiteralOf look.now.search.now.machine.now look.now.reg literal }
        requires small { IdleFits look.now.search.now.machine.now literal }
        ensures never { IfOk result (λ never. never ≡ is_never look.now.search.now.machine.now (idle_question (literal ∷ []))) }
        ensures claims { self.new.claims ≡ self.old.claims }
    {
        let machine = look.search.machine;
        let _netlist = machine.netlist();
        if look.search.cycles.show_idle(machine, literal) {
            return Ok(false);
        }
        let again = self.is_idle_again(look, literal)?;
        if again {
            return Ok(false);
        }
        self.is_never_idle_by_claim(machine, literal)
    }

    /// Whether the literal is the one that a claim showed last to be 0 somewhere, and the bits of then show it in the cone of
    /// this register, too: registers that one literal holds mostly follow one another.
    fn is_idle_again(&mut self, look: &Look<'_>, literal: NetLit) -> Result<bool, AllocError>
        requires look { IsLook look.now.search.now.machine.now look.now.reg look.now.nets.now look.now.cone.now look.now.literals.now }
        requires literal { IsLiteralOf look.now.search.now.machine.now look.now.reg literal }
        ensures idle { IfOk result (λ again. again ≡ true → is_never look.now.search.now.machine.now (idle_question (literal ∷ [])) ≡ false) }
        ensures claims { self.new.claims ≡ self.old.claims }
    {
        if !is_same(self.idle, literal) {
            return Ok(false);
        }
        self.cycles
            .take(look, self.unroller.leaves(), &self.idle_bits)?;
        Ok(self.cycles.show_idle(look, literal))
    }

    /// Whether a literal is never 0, by its claim, which is within its limit.
    fn is_never_idle_by_claim(
        &mut self,
        machine: &Machine,
        literal: NetLit,
    ) -> Result<bool, AllocError>
        requires net { literal.0 < length machine.now.circuit.names }
        requires small { IdleFits machine.now literal }
        ensures never { IfOk result (λ never. never ≡ is_never machine.now (idle_question (literal ∷ []))) }
        ensures claims { self.new.claims ≡ self.old.claims }
    {
        claim_laws();
        let _netlist = machine.netlist();
        // No machine has as many leaves as this width.
        match self.unroller.idle(machine, &[literal], u32::MAX) {
            Ok(()) => {
                let found = self
                    .decider
                    .find(self.unroller.aig(), self.unroller.goal())?;
                let stays = found.is_none();
                self.note_idle(literal, found);
                Ok(stays)
            }
            Err(fault) => Err(wanting(fault)),
        }
    }

    /// Notes at which bits of its claim a literal is 0, if it is somewhere.
    fn note_idle(&mut self, literal: NetLit, found: Option<Vec<bool>>)
        ensures { self.new.claims ≡ self.old.claims }
    {
        match found {
            Some(bits) => {
                self.idle = Some(literal);
                self.idle_bits = bits;
            }
            None => self.idle = None,
        }
    }

    /// The cone of a register's inputs.
    pub fn cone_of(&mut self, machine: &Machine, reg: RegId) -> Result<Cone, AllocError>
        requires { reg < machine.now.own_registers }
        ensures { IfOk result (λ cone. IsConeOf machine.now (input_cone machine.now reg) cone) }
    {
        let netlist = machine.netlist();
        let _registers = netlist.registers();
        let inputs = netlist.register(reg).inputs;
        let cone = self.cones.find(machine, inputs)?;
        Ok(cone)
    }

    /// Marks literals by rounds of random bits, until a round marks none.
    pub fn mark_by_rounds(&mut self, look: &Look<'_>, marks: &mut [bool]) -> Result<(), AllocError>
        requires look { IsLook look.now.search.now.machine.now look.now.reg look.now.nets.now look.now.cone.now look.now.literals.now }
        requires marks { AreMarked look.now.search.now.machine.now look.now.reg look.now.literals.now marks.old }
        ensures { OnOk result (AreMarked look.now.search.now.machine.now look.now.reg look.now.literals.now marks.new) }
    {
        for _ in 0..look.literals.len() {
            self.cycles.draw(look)?;
            let any = mark(look, &self.cycles, marks);
            if !any {
                return Ok(());
            }
        }
        Ok(())
    }

    /// Marks literals by bits of the leaves of the register's claims that violate one of them, and by bits near to these.
    fn mark_near(
        &mut self,
        look: &Look<'_>,
        bits: &[bool],
        marks: &mut [bool],
    ) -> Result<(), AllocError>
        requires look { IsLook look.now.search.now.machine.now look.now.reg look.now.nets.now look.now.cone.now look.now.literals.now }
        requires marks { AreMarked look.now.search.now.machine.now look.now.reg look.now.literals.now marks.old }
        ensures marks { OnOk result (AreMarked look.now.search.now.machine.now look.now.reg look.now.literals.now marks.new) }
        ensures claims { self.new.claims ≡ self.old.claims }
    {
        self.cycles.take(look, self.claims.leaves(), bits)?;
        mark(look, &self.cycles, marks);
        Ok(())
    }
}

/// Whether there is a literal, and it is this one.
fn is_same(found: Option<NetLit>, literal: NetLit) -> bool {
    match found {
        Some(found) => {
            found.net.number() == literal.net.number() && found.inverted == literal.inverted
        }
        None => false,
    }
}

/// What comes of a literal that serves or not.
fn tried(good: bool) -> Trial
    ensures { result ≡ (if good then Trial.Serves else Trial.Fails) }
{
    if good { Trial::Serves } else { Trial::Fails }
}

/// What comes of a literal whose hold claim is refused so.
fn refused(fault: ClaimFault) -> Result<Trial, AddFault>
    ensures { result ≡ refused_trial fault }
{
    match fault {
        ClaimFault::Wide(_) => Ok(Trial::TooWide),
        ClaimFault::Limit(limit) => Err(AddFault::Limit(limit)),
        ClaimFault::NoMemory => Err(AddFault::NoMemory),
    }
}

/// Want of memory, where a fault stands for nothing else.
fn wanting(fault: ClaimFault) -> AllocError
    requires { fault ≡ ClaimFault.NoMemory }
{
    match fault {
        ClaimFault::NoMemory => AllocError,
        ClaimFault::Wide(_) | ClaimFault::Limit(_) => unreachable!(),
    }
}

/// A mark for each literal: set at those that the cycles of the whole machine show not to hold the register.
pub(crate) fn marks_of(alloc: Global, look: &Look<'_>) -> Result<Vec<bool>, AllocError>
    requires look { IsLook look.now.search.now.machine.now look.now.reg look.now.nets.now look.now.cone.now look.now.literals.now }
    requires cycles { AreCycles look.now.search.now.machine.now look.now.search.now.cycles.now.cycles }
    ensures { IfOk result (λ marks. AreMarked look.now.search.now.machine.now look.now.reg look.now.literals.now marks.items) }
{
    let machine = look.search.machine;
    let _netlist = machine.netlist();
    let mut marks = Vec::new(alloc);
    for place in 0..look.literals.len() {
        let moves = look
            .search
            .cycles
            .show_move(machine, look.literals[place], look.reg);
        marks.push(moves)?;
    }
    Ok(marks)
}

/// Marks the literals too that these cycles show not to hold the register. Whether there was one.
pub(crate) fn mark(look: &Look<'_>, cycles: &ConeCycles, marks: &mut [bool]) -> bool
    requires look { IsLook look.now.search.now.machine.now look.now.reg look.now.nets.now look.now.cone.now look.now.literals.now }
    requires cycles { AreConeCycles look.now.search.now.machine.now look.now.reg cycles.now.nets.items cycles.now.moves }
    requires marks { AreMarked look.now.search.now.machine.now look.now.reg look.now.literals.now marks.old }
    ensures { AreMarked look.now.search.now.machine.now look.now.reg look.now.literals.now marks.new }
{
    if cycles.moves == 0 {
        return false;
    }
    let mut any = false;
    for place in 0..look.literals.len() {
        let marked = marks[place];
        if !marked {
            let moves = cycles.show_move(look, look.literals[place]);
            marks[place] = moves;
            any = any | moves;
        }
    }
    any
}
