//! What comes of a stimulus that is played on the original and on the written netlist.

ghost use Rattle.std.specs.Prelude.{◌≡◌, Some, IfOk};
ghost use Rattle.std.specs.Option.{option_copied, option_map};
ghost use Rattle.cg_gate.specs.Played.{AreEdges, HasEdges, IsSaid, IsWhatPlayed};
ghost use Rattle.cg_stimulus.specs.Inputs.{IsFor, Rows};

use cg_list::Seq;
use cg_netlist::netlist::Netlist;
use cg_plan_text::summary::{Edges, Played};
use cg_report::edges::{count_edges, watch_edges};
use cg_report::watcher::Watcher;
use cg_stimulus::played::one_played_history;
use cg_stimulus::stimulus::Stimulus;
use std::alloc::{AllocError, Global};

/// What comes of a stimulus, where there is one, that is played on both netlists, while the watcher, where there is one, looks on
/// the written one.
pub fn play_both(
    alloc: Global,
    read: &Netlist,
    written: &Netlist,
    stimulus: Option<&Stimulus>,
    watcher: Option<Box<dyn Watcher>>,
) -> Result<Played, AllocError>
    requires read { (rows : Rows) → option_copied stimulus ≡ Some rows → IsFor read.now rows }
    requires written { (rows : Rows) → option_copied stimulus ≡ Some rows → IsFor written.now rows }
    ensures { IfOk result (λ played.
        IsWhatPlayed (option_map (λ watcher. says watcher) watcher) (option_copied stimulus.entry) read.now written.now played) }
{
    match stimulus {
        None => Ok(Played {
            edges: None,
            watched: None,
        }),
        Some(stimulus) => play_rows(alloc, read, written, stimulus, watcher),
    }
}

/// What comes of a stimulus that is played on both netlists, while the watcher, where there is one, looks on the written one.
fn play_rows(
    alloc: Global,
    read: &Netlist,
    written: &Netlist,
    stimulus: &Stimulus,
    watcher: Option<Box<dyn Watcher>>,
) -> Result<Played, AllocError>
    requires read { IsFor read.now stimulus.now }
    requires written { IsFor written.now stimulus.now }
    ensures { IfOk result (λ played. IsWhatPlayed (option_map (λ watcher. says watcher) watcher) (Some stimulus.now) read.now written.now played) }
{
    match watcher {
        None => Ok(Played {
            edges: Some(edges_of(alloc, read, written, stimulus)?),
            watched: None,
        }),
        Some(mut watcher) => watch_rows(alloc, read, written, stimulus, &mut watcher),
    }
}

/// The edges of both netlists.
pub fn edges_of(
    alloc: Global,
    read: &Netlist,
    written: &Netlist,
    stimulus: &Stimulus,
) -> Result<Edges, AllocError>
    requires read { IsFor read.now stimulus.now }
    requires written { IsFor written.now stimulus.now }
    ensures { IfOk result (λ both. AreEdges stimulus.now.rows read.now written.now both) }
{
    one_played_history(read, stimulus);
    one_played_history(written, stimulus);
    let original = count_edges(alloc, read, stimulus)?;
    let written = count_edges(alloc, written, stimulus)?;
    Ok(Edges { original, written })
}

/// The edges of both netlists, and the line of a watcher that looks on the written one, which is kept without its end.
fn watch_rows(
    alloc: Global,
    read: &Netlist,
    written: &Netlist,
    stimulus: &Stimulus,
    watcher: &mut Box<dyn Watcher>,
) -> Result<Played, AllocError>
    requires read { IsFor read.now stimulus.now }
    requires written { IsFor written.now stimulus.now }
    ensures { IfOk result (λ played. IsWhatPlayed (Some (says watcher.old)) (Some stimulus.now) read.now written.now played) }
{
    one_played_history(read, stimulus);
    one_played_history(written, stimulus);
    let original = count_edges(alloc, read, stimulus)?;
    let mut line = Vec::new(alloc);
    let written = watch_edges(alloc, written, stimulus, watcher, &mut line)?;
    line.pop();
    Ok(Played {
        edges: Some(Edges { original, written }),
        watched: Some(Seq::from_vec(line)),
    })
}
