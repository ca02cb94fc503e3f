//! Builds machines step by step by their public calls, as the file `script` says line by line, and says what comes of it: the nets
//! that are added, the texts of the netlists that the machines are inserted as, and what comes of calls that the program does not
//! make. So a stored run compares these texts.
//!
//! - A line that is empty or begins with `#` is said as it stands, and so is each other line before what comes of it.
//! - `machine LIB NETLIST` begins with the netlist in the file NETLIST, which is read with the library in the file LIB.
//! - `inv A`, `and2 A B` and `or2 A B` add a gate, and `delay A` a delay register: the name of its net is said.
//! - `enable REGISTER NET` gives the register with this output net the other net as its enable.
//! - `cycle STATE INPUTS` says the bits of the registers after a cycle, from those before it and those of the data inputs.
//! - `value NET BITS` says the bit of the function of the logic cell that drives the net, at bits of the cell's inputs.
//! - `depth MOST NET` says how many logic cells and added gates the net stands on, and how many of them are on the longest way to it; or,
//!   where these are more than MOST, how many were looked at before that was seen.
//! - `idle NET`, `hold NET REGISTER`, `stable NET REGISTER` and `unseen NET REGISTER` build a claim by itself, and say how many leaves it
//!   has and whether it is ever violated: that the net is never 0; that the register keeps its bit where it is 0, or in the cycle after;
//!   that the net does not show the register in the cycle after.
//! - `try NET REGISTER` tries the hold stage of this net and this register, and says what came of it.
//! - `plan` says the lines of the plan of the machine, which is done with.
//! - `insert` says the text of the machine's netlist, and `insert TEST` that with a test input of this name.
#![tactic(auto)]

mod bench;
mod bits;
mod claims;
mod cycle;
mod depth;
mod functions;
mod inserting;
mod nets;
mod planning;
mod player;
mod steps;

use crate::player::{Player, load};
use cg_shelf::{DirShelf, Shelf};
use std::alloc::Global;
use std::process::ExitCode;

fn main(rt: HostRuntime) -> ExitCode {
    let alloc = rt.alloc();
    let mut folder = DirShelf::new(rt, rt.stderr(), alloc);
    match play(alloc, &mut folder) {
        Ok(()) => ExitCode::SUCCESS,
        Err(()) => ExitCode::FAILURE,
    }
}

/// Plays the script line by line.
fn play<S: Shelf>(alloc: Global, folder: &mut S) -> Result<(), ()> {
    let script = load(alloc, folder, "script")?;
    let script = String::from_utf8(script).map_err(|_| ())?;
    let mut player = Player::new(alloc);
    for line in script.lines() {
        player.line(folder, line)?;
    }
    Ok(())
}
