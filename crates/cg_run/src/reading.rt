//! The reading half of a run: each load before its reading, the first refusal ends it.

ghost use Rattle.std.specs.Prelude.{◌≡◌, ◌++◌, IsTrue};
ghost use Rattle.cg_run.specs.Names.{name_of};
ghost use Rattle.cg_run.specs.Roles.{are_distinct};
ghost use Rattle.cg_run.specs.Reads.{Collects};
ghost use Rattle.cg_run.specs.inner.Steps.{Loads};

use crate::mode::Reader;
use crate::names::Names;
use crate::refusal::{Refusal, Step};
use crate::role::Role;
use cg_limit::{Limit, MOST_FILE_BYTES};
use cg_list::Seq;
use cg_shelf::{LoadFault, Shelf};
use std::alloc::Global;

/// Loads the files of these roles and has the reader take them, in order.
///
/// With [`put_out`](crate::put_out) behind it this is a run, whatever finishes what was found in between.
pub fn collect<S: Shelf, M: Reader>(
    alloc: Global,
    shelf: &mut S,
    names: &Names<'_>,
    loads: &[Role],
    reader: M,
) -> Result<M, Refusal>
    requires distinct { IsTrue (are_distinct loads.now) }
    ensures { Collects M.takes (name_of names.now) reader loads.now (S.world shelf.old) (S.world shelf.new) result }
{
    match loads.split_first() {
        None => Ok(reader),
        Some((role, rest)) => {
            let bytes = load(alloc, shelf, names, *role)?;
            let next = reader.take(alloc, *role, bytes)?;
            collect(alloc, shelf, names, rest, next)
        }
    }
}

/// Loads the file of a role.
fn load<S: Shelf>(
    alloc: Global,
    shelf: &mut S,
    names: &Names<'_>,
    role: Role,
) -> Result<Seq<u8>, Refusal>
    ensures { Loads (name_of names.now) role (S.world shelf.old) (S.world shelf.new) result }
{
    let mut bytes = Vec::new(alloc);
    match shelf.load(names.name_of(role), MOST_FILE_BYTES, &mut bytes) {
        Ok(()) => Ok(Seq::from_vec(bytes)),
        Err(LoadFault::Failed) => Err(Refusal::Load(role)),
        Err(LoadFault::TooLong) => Err(Refusal::Limit(Limit::File)),
        Err(LoadFault::NoMemory) => Err(Refusal::NoMemory(Step::Reading)),
    }
}
