//! The run: what a mode does, over the shelf.

ghost use Rattle.std.specs.Prelude.{IsTrue};
ghost use Rattle.cg_run.specs.Promise.{EndsAs, KeepsOthers, UnlessFails, held_files};
ghost use Rattle.cg_run.specs.Reads.{Reads};
ghost use Rattle.cg_run.specs.Names.{name_of};
ghost use Rattle.cg_run.specs.Roles.{are_distinct};
ghost use Rattle.cg_run.specs.Run.{Runs};
ghost use Rattle.cg_run.specs.Verdict.{task_of};

use crate::mode::Mode;
use crate::names::Names;
use crate::reading::collect;
use crate::refusal::Refusal;
use crate::role::Role;
use crate::status::Status;
use crate::writing::{Output, make_line, no_memory, put_out};
use cg_shelf::Shelf;
use std::alloc::Global;

/// Runs a mode that loads the files of these roles.
pub fn drive<S: Shelf, M: Mode>(
    alloc: Global,
    shelf: &mut S,
    names: &Names<'_>,
    loads: &[Role],
    mode: M,
) -> Status
    requires distinct { IsTrue (are_distinct loads.now) }

    // What the run did: what each load gave, the one output that it put out and why, its calls in order with what they answered,
    // how it ended, what it complained of, and what stands.
    ensures runs { Runs (task_of M.takes M.stops M.gives mode loads.now) (name_of names.now) (S.world shelf.old) (S.world shelf.new) result }

    // Names that are not those of stored files keep what they held.
    ensures others { IsTrue (S.world shelf.old).tells
        → KeepsOthers (task_of M.takes M.stops M.gives mode loads.now) (name_of names.now) (S.world shelf.old) (S.world shelf.new) }

    // Where no call of the shelf fails and memory is there, a run ends as what is held comes to.
    ensures comes { IsTrue (S.world shelf.old).tells
        → UnlessFails (EndsAs (task_of M.takes M.stops M.gives mode loads.now) (held_files (name_of names.now) (S.world shelf.old))) result }
{
    run(alloc, shelf, names, loads, mode)
}

fn run<S: Shelf, M: Mode>(
    alloc: Global,
    shelf: &mut S,
    names: &Names<'_>,
    loads: &[Role],
    mode: M,
) -> Status
    requires distinct { IsTrue (are_distinct loads.now) }
    ensures { Runs (task_of M.takes M.stops M.gives mode loads.now) (name_of names.now) (S.world shelf.old) (S.world shelf.new) result }
{
    match make_line(alloc, names) {
        Ok(line) => {
            let found = read(alloc, shelf, names, loads, mode);
            put_out(shelf, names, found, line)
        }
        Err(_) => {
            drop(mode);
            no_memory(shelf)
        }
    }
}

/// Loads the files of these roles, has the mode take them, in order, and asks it what is to be put out.
fn read<S: Shelf, M: Mode>(
    alloc: Global,
    shelf: &mut S,
    names: &Names<'_>,
    loads: &[Role],
    mode: M,
) -> Result<Output, Refusal>
    requires distinct { IsTrue (are_distinct loads.now) }
    ensures { Reads M.takes M.stops M.gives (name_of names.now) mode loads.now (S.world shelf.old) (S.world shelf.new) result }
{
    let found = collect(alloc, shelf, names, loads, mode)?;
    Ok(found.finish(alloc)?)
}
