//! What a mode puts out, and the writing half of a run: what reading came to is written, the stores in order and then the say, of
//! which the first that is refused ends them; or one line of complaint tells why not.

ghost use Rattle.std.specs.Prelude.{◌≡◌, ◌≤◌, ◌+◌, [], codes, length, vec_capacity, IfErr, IfOk};
ghost use Rattle.cg_run.specs.Names.{files_of, longest_name, name_of};
ghost use Rattle.cg_run.specs.Refusal.{HasRoom, complaint_line, complaint_text, status_of};
ghost use Rattle.cg_run.specs.Run.{Complains, PutsOut, Refuses, Tries};
ghost use Rattle.cg_run.specs.Writes.{Writes};
ghost use Rattle.cg_run.specs.inner.Steps.{StoresAll, StoresOne, SaysAll};
ghost use Rattle.cg_run.specs.declared.refusal.Refusal.{Refusal};

use crate::names::Names;
use crate::refusal::{Refusal, Step};
use crate::role::Role;
use crate::status::Status;
use cg_list::Seq;
use cg_shelf::{Shelf, StoreFault};
use std::alloc::{AllocError, Global};

/// How a run ends whose files were read and whose output was written.
#[derive(Clone, Copy, Debug, PartialEq, Eq)]
pub enum Finish {
    /// It did what was asked.
    Done,
    /// The proof is not accepted.
    Rejected,
}

impl Finish {
    ghost use Rattle.std.specs.Prelude.{◌≡◌};
    ghost use Rattle.cg_run.specs.Status.{finish_status};

    /// How the run then ends.
    pub fn status(self) -> Status
        ensures { result ≡ finish_status self }
    {
        match self {
            Finish::Done => Status::Done,
            Finish::Rejected => Status::Rejected,
        }
    }
}

/// A text and the role of the file that it goes to.
#[derive(Debug, Drop)]
pub struct Text {
    pub role: Role,
    pub bytes: Seq<u8>,
}

/// The texts to be stored, in order, the text to be said, and how the run then ends.
#[derive(Debug, Drop)]
pub struct Output {
    pub stores: Seq<Text>,
    pub said: Seq<u8>,
    pub finish: Finish,
}

/// An empty line with room for the complaint of any refusal but that of a content, which may be longer.
///
/// It is made before the first load: behind it want of memory comes of reading, of the line of a content and of the shelf alone.
pub fn make_line(alloc: Global, names: &Names<'_>) -> Result<Vec<u8>, AllocError>
    ensures empty { IfOk result (λ line. line.items ≡ []) }
    ensures room { IfOk result (λ line. (refusal : Refusal) → HasRoom (name_of names.now) (vec_capacity line) refusal) }
{
    let mut line = Vec::new(alloc);
    line.reserve(longest_line(names))?;
    Ok(line)
}

/// Complains that there is no memory.
pub fn no_memory<S: Shelf>(shelf: &mut S) -> Status
    ensures { Complains (complaint_line (codes "no memory")) Status.NoMemory (S.world shelf.old) (S.world shelf.new) result }
{
    complain(shelf, Status::NoMemory, b"clockgate: no memory\n")
}

/// Writes the output that reading came to, and ends as it says; or complains why there is none, or why it is not written.
pub fn put_out<S: Shelf>(
    shelf: &mut S,
    names: &Names<'_>,
    found: Result<Output, Refusal>,
    line: Vec<u8>,
) -> Status
    requires empty { line.items ≡ [] }
    requires room { (refusal : Refusal) → HasRoom (name_of names.now) (vec_capacity line) refusal }
    ensures puts { PutsOut (name_of names.now) found (S.world shelf.old) (S.world shelf.new) result }
    // A refusal for whose line there is room is complained as it is, a content too.
    ensures roomy { IfErr found (λ refusal. length (complaint_text (name_of names.now) refusal) ≤ vec_capacity line
        → Complains (complaint_text (name_of names.now) refusal) (status_of refusal) (S.world shelf.old) (S.world shelf.new) result) }
{
    let mut line = line;
    match try_to_write(shelf, names, found) {
        Ok(finish) => finish.status(),
        Err(refusal) => refuse(shelf, names, &refusal, &mut line),
    }
}

/// Writes the output.
fn try_to_write<S: Shelf>(
    shelf: &mut S,
    names: &Names<'_>,
    found: Result<Output, Refusal>,
) -> Result<Finish, Refusal>
    ensures { Tries (name_of names.now) found (S.world shelf.old) (S.world shelf.new) result }
{
    let output = found?;
    write(shelf, names, &output)?;
    Ok(output.finish)
}

/// Stores the texts of the output in order, and then says its text.
fn write<S: Shelf>(shelf: &mut S, names: &Names<'_>, output: &Output) -> Result<(), Refusal>
    ensures { Writes (name_of names.now) output.now (S.world shelf.old) (S.world shelf.new) result }
{
    store_all(shelf, names, output.stores.as_slice())?;
    say(shelf, names, &output.said)
}

fn store_all<S: Shelf>(shelf: &mut S, names: &Names<'_>, texts: &[Text]) -> Result<(), Refusal>
    ensures { StoresAll (name_of names.now) texts.now (S.world shelf.old) (S.world shelf.new) result }
{
    match texts.split_first() {
        None => Ok(()),
        Some((text, rest)) => {
            store(shelf, names, text)?;
            store_all(shelf, names, rest)
        }
    }
}

fn store<S: Shelf>(shelf: &mut S, names: &Names<'_>, text: &Text) -> Result<(), Refusal>
    ensures { StoresOne (name_of names.now) text.now (S.world shelf.old) (S.world shelf.new) result }
{
    match shelf.store(names.name_of(text.role), text.bytes.as_slice()) {
        Ok(()) => Ok(()),
        Err(StoreFault::Failed) => Err(Refusal::Store(text.role)),
        Err(StoreFault::NoMemory) => Err(Refusal::NoMemory(Step::Storing(text.role))),
    }
}

fn say<S: Shelf>(shelf: &mut S, names: &Names<'_>, bytes: &Seq<u8>) -> Result<(), Refusal>
    ensures { SaysAll (name_of names.now) bytes.now (S.world shelf.old) (S.world shelf.new) result }
{
    match shelf.say(bytes.as_slice()) {
        Ok(()) => Ok(()),
        Err(StoreFault::Failed) => Err(Refusal::Say),
        Err(StoreFault::NoMemory) => Err(Refusal::NoMemory(Step::Saying)),
    }
}

/// How much longer than the longest name the line of a refusal may be, if it is none of a content.
const LINE_ROOM: usize = 64;

/// How long the line of a refusal may be, if it is none of a content.
#[tactic(auto, using(crate::proofs::LineRoom::room_of))]
fn longest_line(names: &Names<'_>) -> usize
    ensures longest { result ≡ longest_name (files_of names.now) + LINE_ROOM }
    ensures room { (refusal : Refusal) → HasRoom (name_of names.now) result refusal }
{
    names.longest() + LINE_ROOM
}

/// Complains of a refusal, or of want of memory where the line has not the room and there is none for it: that of a content.
fn refuse<S: Shelf>(
    shelf: &mut S,
    names: &Names<'_>,
    refusal: &Refusal,
    line: &mut Vec<u8>,
) -> Status
    requires empty { line.old.items ≡ [] }
    requires room { HasRoom (name_of names.now) (vec_capacity line.old) refusal.now }
    ensures refuses { Refuses (name_of names.now) refusal.now (S.world shelf.old) (S.world shelf.new) result }
    ensures roomy { length (complaint_text (name_of names.now) refusal.now) ≤ vec_capacity line.old
        → Complains (complaint_text (name_of names.now) refusal.now) (status_of refusal.now) (S.world shelf.old) (S.world shelf.new) result }
{
    match refusal.complain_into(names, line) {
        Ok(()) => complain(shelf, refusal.status(), line.as_slice()),
        Err(_) => no_memory(shelf),
    }
}

/// Complains one line. A complaint that fails does not change the status; one that finds no memory does.
pub fn complain<S: Shelf>(shelf: &mut S, status: Status, line: &[u8]) -> Status
    ensures { Complains line.now status (S.world shelf.old) (S.world shelf.new) result }
{
    match shelf.complain(line) {
        Ok(()) | Err(StoreFault::Failed) => status,
        Err(StoreFault::NoMemory) => Status::NoMemory,
    }
}
