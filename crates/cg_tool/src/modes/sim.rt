//! The mode `sim`: a stimulus is played on a netlist.

ghost use Rattle.std.specs.Prelude.{false, IfOk, IsSomeAnd, IsTrue, None};
ghost use Rattle.std.specs.Option.{option_map};
ghost use Rattle.cg_run.specs.Names.{name_of};
ghost use Rattle.cg_run.specs.Promise.{FinishBy};
ghost use Rattle.cg_run.specs.Reads.{Reads};
ghost use Rattle.cg_run.specs.Run.{Runs};
ghost use Rattle.cg_run.specs.Verdict.{Concludes};
ghost use Rattle.cg_source.specs.Design.{design_loads, design_of};
ghost use Rattle.cg_source.specs.Stimulus.{has_file};
ghost use Rattle.cg_stimulus.specs.Inputs.{IsFor};
ghost use Rattle.cg_tool.specs.Sim.{IsSimulated, MayBePlayed, PlaysAs, SaysPlayed, play_gives, sim_gives, sim_start, sim_stops, sim_takes, sim_task};

use cg_list::Seq;
use cg_netlist::netlist::Netlist;
use cg_report::rows::push_rows;
use cg_report::watched_rows::push_watched_rows;
use cg_report::watcher::Watcher;
use cg_run::{
    Finish, Names, Output, Refusal, Status, Trouble, collect, make_line, no_memory, put_out,
};
use cg_shelf::Shelf;
use cg_source::design::{AnyNetlist, Design, DesignFiles, design_files};
use cg_source::netlist::NetlistOptions;
use cg_source::stimulus::StimulusForm;
use cg_stimulus::stimulus::Stimulus;
use std::alloc::{AllocError, Global};

/// Plays a stimulus of this form on a netlist that is read so, over the shelf; the words may name a watcher.
pub fn run<S: Shelf>(
    alloc: Global,
    shelf: &mut S,
    names: &Names<'_>,
    form: StimulusForm,
    options: NetlistOptions,
    watcher: Option<Box<dyn Watcher>>,
) -> Status
    ensures runs { Runs (sim_task form options (option_map (λ watcher. says watcher) watcher)) (name_of names.now) (S.world shelf.old)
        (S.world shelf.new) result }

    // A finished run said the lines of the one history on which the stimulus is played, and the watcher's line of its moments.
    ensures simulated { IsTrue (S.world shelf.old).tells
        → FinishBy (IsSimulated form options (option_map (λ watcher. says watcher) watcher) (name_of names.now) (S.world shelf.old) (S.world shelf.new)) result }
{
    match make_line(alloc, names) {
        Ok(line) => {
            let found = read(alloc, shelf, names, form, options, watcher);
            put_out(shelf, names, found, line)
        }
        Err(_) => {
            drop(options);
            drop(watcher);
            no_memory(shelf)
        }
    }
}

/// Loads the files and reads them, and plays the stimulus.
fn read<S: Shelf>(
    alloc: Global,
    shelf: &mut S,
    names: &Names<'_>,
    form: StimulusForm,
    options: NetlistOptions,
    watcher: Option<Box<dyn Watcher>>,
) -> Result<Output, Refusal>
    ensures { Reads sim_takes sim_stops (sim_gives (option_map (λ watcher. says watcher) watcher)) (name_of names.now) (sim_start form options)
        (design_loads (has_file form) false) (S.world shelf.old) (S.world shelf.new) result }
{
    let start = DesignFiles::start(alloc, AnyNetlist, options, Some(form));
    let files = design_files(form.has_file(), false);
    let found = collect(alloc, shelf, names, files, start)?;
    Ok(finish(alloc, found, watcher)?)
}

/// What is put out once all files are taken.
fn finish(
    alloc: Global,
    found: DesignFiles<AnyNetlist>,
    watcher: Option<Box<dyn Watcher>>,
) -> Result<Output, Trouble>
    requires { IsSomeAnd (design_of found) MayBePlayed }
    ensures { Concludes (sim_stops found) (sim_gives (option_map (λ watcher. says watcher) watcher) found) result }
{
    let design = found.read();
    let result = play(alloc, &design, watcher);
    // By a call, as its parts would else be dropped one by one in the proof.
    drop(design);
    result
}

/// What is put out of a design whose stimulus is played on its netlist.
fn play(
    alloc: Global,
    design: &Design<AnyNetlist>,
    watcher: Option<Box<dyn Watcher>>,
) -> Result<Output, Trouble>
    requires { MayBePlayed design.now }
    ensures { Concludes None (play_gives (option_map (λ watcher. says watcher) watcher) design.now) result }
{
    let stimulus = design.stimulus.as_ref().unwrap();
    play_rows(alloc, &design.netlist, stimulus, watcher)
}

/// What is put out of a stimulus that is played on the netlist for which it is.
fn play_rows(
    alloc: Global,
    netlist: &Netlist,
    stimulus: &Stimulus,
    watcher: Option<Box<dyn Watcher>>,
) -> Result<Output, Trouble>
    requires { IsFor netlist.now stimulus.now }
    ensures { Concludes None (PlaysAs (option_map (λ watcher. says watcher) watcher) netlist.now stimulus.now) result }
{
    let said = say_rows(alloc, netlist, stimulus, watcher)?;
    Ok(Output {
        stores: Seq::new(alloc),
        said: Seq::from_vec(said),
        finish: Finish::Done,
    })
}

/// What is said of a stimulus that is played on the netlist for which it is.
fn say_rows(
    alloc: Global,
    netlist: &Netlist,
    stimulus: &Stimulus,
    watcher: Option<Box<dyn Watcher>>,
) -> Result<Vec<u8>, AllocError>
    requires { IsFor netlist.now stimulus.now }
    ensures { IfOk result (λ text. SaysPlayed (option_map (λ watcher. says watcher) watcher) netlist.now stimulus.now.rows text.items) }
{
    let mut text = Vec::new(alloc);
    match watcher {
        None => push_rows(alloc, netlist, stimulus, &mut text)?,
        Some(mut watcher) => push_watched_rows(alloc, netlist, stimulus, &mut watcher, &mut text)?,
    }
    Ok(text)
}
