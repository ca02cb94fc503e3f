//! What a run asks of a mode.

use crate::refusal::Trouble;
use crate::role::Role;
use crate::writing::Output;
use cg_list::Seq;
use std::alloc::Global;

/// What was found so far in the files of a run: it takes them one after another.
///
/// `takes` is what is found with one more file: an answer is its value, or want of memory.
pub trait Reader: Drop {
    ghost use Rattle.std.specs.Prelude.{List, ℕ, Result};
    ghost use Rattle.cg_run.specs.Verdict.{Answers};
    ghost use Rattle.cg_run.specs.declared.refusal.Trouble.{Trouble};
    ghost use Rattle.cg_run.specs.declared.role.Role.{Role};

    ghost takes: { Self → Role → List ℕ → Result Self Trouble };

    /// What is found with one more file. Errs where its content is refused or passes a limit.
    fn take(self, alloc: Global, role: Role, bytes: Seq<u8>) -> Result<Self, Trouble>
        ensures { Answers (takes self role bytes) result };
}

/// A mode, as what it has found so far: it takes the files one after another, and then says what is to be put out.
///
/// `stops` is what refuses what was found once all files are taken: an answer is its value, or want of memory. `gives` is a
/// relation: of the outputs that a mode may put out it says which, and not which one. No method calls the shelf.
pub trait Mode: Reader {
    ghost use Rattle.std.specs.Prelude.{Option};
    ghost use Rattle.cg_run.specs.Verdict.{Concludes};
    ghost use Rattle.cg_run.specs.declared.writing.Output.{Output};
    ghost use Rattle.cg_run.specs.declared.refusal.Trouble.{Trouble};

    ghost stops: { Self → Option Trouble };

    ghost gives: { Self → Output → Type 0 };

    /// What is to be put out once all files are taken. Errs where that is refused or passes a limit.
    fn finish(self, alloc: Global) -> Result<Output, Trouble>
        ensures { Concludes (stops self) (gives self) result };
}
