//! A run of the program, whatever its mode.
//!
//! A mode is a list of files to load, each known by its role, a pure part that takes their bytes one after another and says
//! what is to be put out, and nothing else: it never calls the shelf. [`drive`] loads the files, has the mode take them,
//! stores the texts of its output and says the last one, and ends with a status; or it complains one line that tells why
//! not. What such a run did is one relation over these lists, proved once for every mode.
//!
//! The modules, in the order in which data flows through them:
//!
//! - `role`: what a file is to a run, and `names`: which file that is;
//! - `refusal`: why a run was not done, and its line of complaint;
//! - `content`: what is complained of a file's content, with a number or a name;
//! - `status`: how a run ends;
//! - `mode`: what a run asks of a mode;
//! - `reading`: the reading half of a run, [`collect`];
//! - `writing`: what a mode puts out, and the writing half of a run, [`put_out`];
//! - `driver`: a run of both halves, with what a mode makes of its files between.
#![tactic(auto)]

mod content;
mod driver;
mod mode;
mod names;
mod reading;
mod refusal;
mod role;
mod status;
mod writing;

pub use driver::drive;
pub use mode::{Mode, Reader};
pub use names::{NamedFile, Names};
pub use reading::collect;
pub use refusal::{Content, Owner, Refusal, Step, Trouble};
pub use role::Role;
pub use status::Status;
pub use writing::{Finish, Output, Text, complain, make_line, no_memory, put_out};
