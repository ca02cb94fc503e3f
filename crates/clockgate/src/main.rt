//! The program `clockgate`: its words and the files of the system go in, and its exit status is how the
//! run ended. All that it does is `cg_tool::run` over a shelf of real files, with the watchers that there are.
#![tactic(auto)]

mod progress_line;

use cg_report::clock_count::ClockCount;
use cg_report::edge_count::EdgeCount;
use cg_report::toggle_count::ToggleCount;
use cg_report::watcher::Watcher;
use cg_shelf::DirShelf;
use cg_tool::{Status, run};
use cg_vcd::watch::VcdWatch;
use progress_line::ProgressLine;
use std::alloc::AllocError;
use std::io::{ErrorKind, IsTerminal};
use std::process::ExitCode;
use std::{env, io};

fn main(rt: HostRuntime) -> ExitCode {
    ExitCode::from(status(rt).number())
}

/// Runs the words of the command line. A word that is not UTF-8 is no word that the program takes. Nothing is said of
/// it, nor of want of memory before the run begins.
fn status(rt: HostRuntime) -> Status {
    match words(rt) {
        Ok(words) => watched(rt, words.as_slice()).unwrap_or(Status::NoMemory),
        Err(error) if error.kind() == ErrorKind::InvalidData => Status::Usage,
        Err(_) => Status::NoMemory,
    }
}

/// The words of the command line.
fn words(rt: HostRuntime) -> io::Result<Vec<String>> {
    Ok(env::args(&rt)?.collect::<Vec<String>>(rt.alloc())?)
}

/// Runs the words, which may ask for a watcher of edges, of toggles or of clocks, or for one that says a Value Change Dump.
fn watched(rt: HostRuntime, words: &[String]) -> Result<Status, AllocError> {
    let alloc = rt.alloc();
    let mut watchers: Vec<Box<dyn Watcher>> = Vec::new(alloc);
    let edges: Box<dyn Watcher> = Box::new(alloc, EdgeCount::new())?;
    watchers.push(edges)?;
    let toggles: Box<dyn Watcher> = Box::new(alloc, ToggleCount::new(alloc))?;
    watchers.push(toggles)?;
    let clocks: Box<dyn Watcher> = Box::new(alloc, ClockCount::new(alloc))?;
    watchers.push(clocks)?;
    let dump: Box<dyn Watcher> = Box::new(alloc, VcdWatch::new(alloc))?;
    watchers.push(dump)?;
    Ok(over_files(rt, words, watchers))
}

/// Runs the words with these watchers over the files of the system.
fn over_files(rt: HostRuntime, words: &[String], watchers: Vec<Box<dyn Watcher>>) -> Status {
    let alloc = rt.alloc();
    let mut shelf = DirShelf::new(rt, rt.stderr(), alloc);
    let mut line = ProgressLine::new(rt, rt.stderr().is_terminal());
    run(alloc, words, &mut shelf, watchers, &mut line)
}
