//! The names of the files of a run.

ghost use Rattle.std.specs.Prelude.{◌≡◌, ◌<◌, ◌^◌, length, map, max, IfOk};
ghost use Rattle.cg_run.specs.Names.{file_seen, files_of, longest_name, name_of};
ghost use Rattle.cg_run.specs.Roles.{is_role};

use crate::role::Role;
use std::alloc::{AllocError, Global};

/// A file of a run: what it is to the run, and its name.
#[derive(Clone, Copy, Debug)]
pub struct NamedFile<'a> {
    pub role: Role,
    pub name: &'a str,
}

/// The files of a run, as the words name them, each by its role.
#[derive(Debug, Drop)]
pub struct Names<'a> {
    pub files: Vec<NamedFile<'a>>,
}

impl<'a> Names<'a> {
    /// These files.
    pub fn of(alloc: Global, files: &[NamedFile<'a>]) -> Result<Names<'a>, AllocError>
        ensures { IfOk result (λ names. files_of names ≡ map file_seen files.entry.now) }
    {
        Ok(Names {
            files: Vec::from_slice(alloc, files)?,
        })
    }
}

impl Names<'_> {
    /// The name of the file of a role; empty where the words give none.
    #[tactic(auto, using(crate::proofs::FileNames::file_of_drop))]
    pub fn name_of(&self, role: Role) -> &str
        ensures { result.now ≡ name_of self.now role }
    {
        'files: for file in &self.files {
            if is_of(file, role) {
                return file.name;
            }
        }
        ""
    }

    /// How long the longest name is.
    pub fn longest(&self) -> usize
        ensures longest { result ≡ longest_name (files_of self.now) }
        ensures within { result < 2 ^ 63 }
    {
        longest_of(self.files.as_slice())
    }
}

/// Whether this is the file of a role.
fn is_of(file: &NamedFile<'_>, role: Role) -> bool
    ensures { result ≡ is_role file.now.role role }
{
    file.role == role
}

/// How long the longest name of these files is.
fn longest_of(files: &[NamedFile<'_>]) -> usize
    ensures longest { result ≡ longest_name (map file_seen files.now) }
    ensures within { result < 2 ^ 63 }
{
    match files.split_first() {
        None => 0,
        Some((file, rest)) => greater(length_of(file.name), longest_of(rest)),
    }
}

fn length_of(name: &str) -> usize
    ensures length { result ≡ length name.now }
    ensures within { result < 2 ^ 63 }
{
    name.len()
}

fn greater(a: usize, b: usize) -> usize
    ensures { result ≡ max a b }
{
    if a < b { b } else { a }
}
