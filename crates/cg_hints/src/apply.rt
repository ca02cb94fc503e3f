//! One hint, or many, tried on a machine.

ghost use Rattle.std.specs.Prelude.{◌≡◌, [], IfErr, IfOk, OnOk};
ghost use Rattle.cg_hint_laws.specs.Answers.{MayFail};
ghost use Rattle.cg_hint_laws.specs.Hints.{Fits};
ghost use Rattle.cg_hint_laws.specs.Laws.{AllFit, IsSafe};
ghost use Rattle.cg_hint_laws.specs.Trying.{hinted, tried};
ghost use Rattle.cg_hints.specs.Applying.{AreApplied, reported};
ghost use Rattle.cg_hints.specs.Trial.{IsApplied, IsRefused};
ghost use Rattle.cg_hints.specs.inner.Drafting.{IsStep, drafted};
ghost use Rattle.cg_machine.specs.Machine.{IsMachine};

use crate::judge::Judge;
use crate::rules::Rules;
use cg_hint_laws::certificate::HintCertificate;
use cg_hint_laws::hint::Hint;
use cg_hint_laws::laws::hint_laws;
use cg_hint_laws::outcome::HintOutcome;
use cg_judge::trying::next_number;
use cg_list::Seq;
use cg_machine::machine::Machine;
use cg_netlist::fault::AddFault;
use std::alloc::Global;

/// Hints that were tried on a machine one after another.
#[derive(Drop)]
pub struct Applied {
    /// The machine that they leave.
    pub machine: Machine,

    /// What came of each hint, in order.
    pub outcomes: Seq<HintOutcome>,

    /// Where proofs are wanted, one of the claim of each register of each inserted hint, in the order of hints and registers.
    pub certificates: Seq<HintCertificate>,
}

/// Tries a hint that fits the machine, as the hint of this number, and inserts it where it deserves it.
///
/// An inserted hint keeps what every run of the machine shows. Where proofs are wanted, a certificate for each of its registers is put
/// behind `into`, in order; else `into` stays as it is. Any other outcome leaves the machine and `into` as they are.
///
/// It is refused by `Limit(ClaimNodes)` where no register has an enable, the library has the cells, no claim is too wide, and one has
/// more than 65,536 leaves and and-nodes; and by `Limit(Nets)` or `Limit(Registers)` where the hint deserves to be inserted, and what
/// would be added passes that limit. After a refusal `into` and all enables are as before, and gates and delay registers that no
/// enable reads may have been added.
pub fn apply(
    alloc: Global,
    machine: &mut Machine,
    number: u32,
    hint: &Hint,
    rules: &Rules<'_>,
    into: &mut Vec<HintCertificate>,
) -> Result<HintOutcome, AddFault>
    requires { Fits machine.old hint.now }
    ensures applied { IfOk result (λ outcome. IsApplied rules.now.library.now rules.now.width rules.now.proof number machine.old hint.now
        into.old.items outcome machine.new into.new.items) }
    ensures refused { IfErr result (λ fault. IsRefused rules.now.library.now rules.now.width machine.old hint.now
        into.old.items fault machine.new into.new.items) }
    ensures whole { IsMachine machine.new }
{
    let mut judge = Judge::new(alloc);
    let result = judge.apply(machine, number, hint, rules, into);
    // By a call, as its parts would else be dropped one by one in the proof.
    drop(judge);
    result
}

/// Tries hints that fit the machine one after another, each on the machine that those before it leave, as [`apply`] says.
///
/// From every start with 1 in the delay registers and over every waveform the machine that they leave shows what the machine
/// shows that is given. Where proofs are wanted there is a certificate for each register of an inserted hint.
///
/// It is refused by the limit that comes first in the order of the hints.
pub fn apply_all(
    alloc: Global,
    machine: Machine,
    hints: &[Hint],
    rules: &Rules<'_>,
) -> Result<Applied, AddFault>
    requires { AllFit machine hints.now }
    ensures applied { IfOk result
        (λ applied. AreApplied rules.now.library.now rules.now.width rules.now.proof machine hints.now (reported applied)) }
    ensures safe { IfOk result (λ applied. IsSafe rules.now.library.now machine applied.machine) }
    ensures fault { IfErr result (MayFail (hinted rules.now.library.now rules.now.width machine hints.now)) }
{
    hint_laws();
    let _netlist = machine.netlist();
    let mut draft = Draft::new(alloc, machine);
    let result = draft.try_all(hints, rules);
    match result {
        Ok(()) => Ok(draft.into_applied()),
        Err(fault) => {
            drop(draft);
            Err(fault)
        }
    }
}

/// Hints that are being tried: what they leave so far.
#[derive(Drop)]
pub(crate) struct Draft {
    pub(crate) machine: Machine,
    pub(crate) outcomes: Seq<HintOutcome>,
    pub(crate) certificates: Vec<HintCertificate>,
    pub(crate) judge: Judge,
}

impl Draft {
    /// Of no hint yet.
    fn new(alloc: Global, machine: Machine) -> Draft
        ensures machine { result.machine ≡ machine }
        ensures outcomes { result.outcomes ≡ [] }
        ensures certificates { result.certificates.items ≡ [] }
    {
        Draft {
            machine,
            outcomes: Seq::new(alloc),
            certificates: Vec::new(alloc),
            judge: Judge::new(alloc),
        }
    }

    /// What the hints leave.
    fn into_applied(self) -> Applied
        ensures { reported result ≡ drafted self }
    {
        // By a call, as its parts would else be dropped one by one in the proof.
        drop(self.judge);
        Applied {
            machine: self.machine,
            outcomes: self.outcomes,
            certificates: Seq::from_vec(self.certificates),
        }
    }

    /// Tries hints one after another, where none was tried before.
    fn try_all(&mut self, hints: &[Hint], rules: &Rules<'_>) -> Result<(), AddFault>
        requires fit { AllFit self.old.machine hints.now }
        requires outcomes { self.old.outcomes ≡ [] }
        requires certificates { self.old.certificates.items ≡ [] }
        ensures applied { OnOk result
            (AreApplied rules.now.library.now rules.now.width rules.now.proof self.old.machine hints.now (drafted self.new)) }
        ensures fault { IfErr result (MayFail (hinted rules.now.library.now rules.now.width self.old.machine hints.now)) }
    {
        let _netlist = self.machine.netlist();
        for hint in hints {
            self.try_one(hint, rules)?;
        }
        Ok(())
    }

    /// Tries the next hint.
    fn try_one(&mut self, hint: &Hint, rules: &Rules<'_>) -> Result<(), AddFault>
        requires { Fits self.old.machine hint.now }
        ensures step { OnOk result (IsStep rules.now.library.now rules.now.width rules.now.proof hint.now self.old self.new) }
        ensures fault { IfErr result (MayFail (tried rules.now.library.now rules.now.width self.old.machine hint.now)) }
    {
        let number = next_number(self.outcomes.len())?;
        let outcome = self.judge.apply(
            &mut self.machine,
            number,
            hint,
            rules,
            &mut self.certificates,
        )?;
        self.outcomes.push(outcome)?;
        Ok(())
    }
}
