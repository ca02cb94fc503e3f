//! Why a run was not done: a refusal is of a kind.

ghost use Rattle.std.specs.Prelude.{◌≡◌, ◌<◌, ◌≤◌, ◌+◌, ◌++◌, [], length, vec_capacity, OnErr, OnOk};
ghost use Rattle.cg_run.specs.Names.{name_of};
ghost use Rattle.cg_run.specs.Refusal.{status_of, owner_status, limit_text, reason_text, complaint_text};

use crate::names::Names;
use crate::role::Role;
use crate::status::Status;
use cg_limit::Limit;
use cg_list::Seq;
use std::alloc::AllocError;

/// Whose content is refused.
#[derive(Clone, Copy, Debug, PartialEq, Eq)]
pub enum Owner {
    /// A netlist's, also that of one that is to be written.
    Netlist,
    /// A library's.
    Library,
    /// That of a stimulus, of hints, of a formula or of a proof log.
    Stimulus,
}

/// A refused content: whose it is, and what its complaint says, with the place or the name that it is refused for.
#[derive(Debug, Drop)]
pub struct Content {
    pub owner: Owner,
    pub text: Seq<u8>,
}

/// How far a run had come.
#[derive(Clone, Copy, Debug, PartialEq, Eq)]
pub enum Step {
    /// Nothing was written yet.
    Reading,
    /// This file was being stored, those before it were stored.
    Storing(Role),
    /// All files were stored, and the text was being said.
    Saying,
}

/// Why a run was not done.
#[derive(Debug, Drop)]
pub enum Refusal {
    /// A file's content is refused.
    Content(Content),
    /// This limit is passed.
    Limit(Limit),
    /// The load of this file failed.
    Load(Role),
    /// The store of this file failed.
    Store(Role),
    /// The text could not be said.
    Say,
    /// There was no memory at this step.
    NoMemory(Step),
}

/// Why reading, or what is made of what was read, gave up. None of it calls the shelf.
#[derive(Debug, Drop)]
pub enum Trouble {
    /// A file's content is refused.
    Content(Content),
    /// This limit is passed.
    Limit(Limit),
    /// There was no memory.
    NoMemory,
}

impl From<AllocError> for Trouble {
    ghost use Rattle.cg_run.specs.declared.refusal.Trouble.TheVariants as troubles;

    ghost from_gives = { λ _ e. e ≡ troubles.NoMemory };

    fn from(_cause: AllocError) -> Trouble {
        Trouble::NoMemory
    }
}

impl From<AllocError> for Refusal {
    ghost use Rattle.cg_run.specs.declared.refusal.Refusal.TheVariants as refusals;
    ghost use Rattle.cg_run.specs.declared.refusal.Step.TheVariants.{Reading};

    ghost from_gives = { λ _ e. e ≡ refusals.NoMemory Reading };

    fn from(_cause: AllocError) -> Refusal {
        Refusal::NoMemory(Step::Reading)
    }
}

impl From<Trouble> for Refusal {
    ghost use Rattle.cg_run.specs.Refusal.{refusal_of};

    ghost from_gives = { λ t e. e ≡ refusal_of t };

    fn from(cause: Trouble) -> Refusal {
        match cause {
            Trouble::Content(content) => Refusal::Content(content),
            Trouble::Limit(limit) => Refusal::Limit(limit),
            Trouble::NoMemory => Refusal::NoMemory(Step::Reading),
        }
    }
}

impl Owner {
    fn status(self) -> Status
        ensures { result ≡ owner_status self }
    {
        match self {
            Owner::Netlist => Status::Netlist,
            Owner::Library => Status::Library,
            Owner::Stimulus => Status::Stimulus,
        }
    }
}

impl Refusal {
    /// How a run ends that is refused so.
    pub fn status(&self) -> Status
        ensures { result ≡ status_of self.now }
    {
        match self {
            Refusal::Content(content) => content.owner.status(),
            Refusal::Limit(_) => Status::Limit,
            Refusal::Load(_) => Status::ReadFault,
            Refusal::Store(_) | Refusal::Say => Status::WriteFault,
            Refusal::NoMemory(_) => Status::NoMemory,
        }
    }

    /// The whole line that is complained of this refusal. There is no memory for it only where the list had not the room.
    pub fn complain_into(&self, names: &Names<'_>, line: &mut Vec<u8>) -> Result<(), AllocError>
        requires { line.old.items ≡ [] }
        ensures whole { OnOk result (line.new.items ≡ complaint_text (name_of names.now) self.now) }
        ensures full { OnErr result (vec_capacity line.old < length (complaint_text (name_of names.now) self.now)) }
    {
        line.extend_from_slice(b"clockgate: ")?;
        self.push_reason(names, line)?;
        line.push(b'\n')?;
        Ok(())
    }

    fn push_reason(&self, names: &Names<'_>, line: &mut Vec<u8>) -> Result<(), AllocError>
        ensures pushed { OnOk result (line.new.items ≡ line.old.items ++ reason_text (name_of names.now) self.now) }
        ensures room { vec_capacity line.old ≤ vec_capacity line.new }
        ensures full { OnErr result (vec_capacity line.old < length line.old.items + length (reason_text (name_of names.now) self.now)) }
    {
        match self {
            Refusal::Content(content) => line.extend_from_slice(content.text.as_slice()),
            Refusal::Limit(limit) => push_named(line, b"limit ", limit_text(*limit)),
            Refusal::Load(role) => push_named(line, b"read fault ", names.name_of(*role)),
            Refusal::Store(role) => push_named(line, b"write fault ", names.name_of(*role)),
            Refusal::Say => line.extend_from_slice(b"write fault -"),
            Refusal::NoMemory(_) => line.extend_from_slice(b"no memory"),
        }
    }
}

fn push_named(line: &mut Vec<u8>, text: &[u8], name: &str) -> Result<(), AllocError>
    ensures pushed { OnOk result (line.new.items ≡ line.old.items ++ (text.now ++ name.now)) }
    ensures room { vec_capacity line.old ≤ vec_capacity line.new }
    ensures full { OnErr result (vec_capacity line.old < length line.old.items + length (text.now ++ name.now)) }
{
    line.extend_from_slice(text)?;
    line.extend_from_slice(name.as_bytes())
}

fn limit_text(limit: Limit) -> &'static str
    ensures { result.now ≡ limit_text limit }
{
    match limit {
        Limit::File => "file",
        Limit::Nets => "nets",
        Limit::Registers => "registers",
        Limit::CoverInputs => "cover inputs",
        Limit::LibraryCells => "library cells",
        Limit::Nesting => "nesting",
        Limit::ClaimNodes => "claim nodes",
        Limit::Rows => "rows",
        Limit::Variables => "variables",
    }
}
