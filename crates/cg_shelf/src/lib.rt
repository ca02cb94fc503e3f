//! Files and texts in and out.
//!
//! The rest of `clockgate` reaches the outside only through the four calls of [`Shelf`]: it loads and stores files by name,
//! says text and complains. What goes in are names and bytes, and what comes out are bytes, a list of the calls that were made
//! and a list of those that failed. A `Shelf` has a written meaning, so that a claim about a whole run can speak of the bytes
//! under a name before and after it.
//!
//! The modules, in the order in which data flows through them:
//!
//! - `faults`: the refusals of a call, and the records of a call that was made and of one that failed;
//! - `call_log`: the calls with what each answered, which only proofs see;
//! - `calls`: the trait [`Shelf`];
//! - `mem_shelf`: a shelf in memory that tells everything and fails where it is told to;
//! - `dir_shelf`: the trusted edge over real files, standard output and standard error, which give or take a part of a text at a time.
#![tactic(auto)]

mod call_log;
mod calls;
mod dir_shelf;
mod faults;
mod mem_shelf;

pub use calls::Shelf;
pub use dir_shelf::DirShelf;
pub use faults::{Call, CallMade, Fault, FileName, LoadFault, StoreFault};
pub use mem_shelf::MemShelf;
