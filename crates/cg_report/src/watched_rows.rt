//! What is said of the rows that are played while a watcher looks on: a line for each, the edges, and the watcher's line.

ghost use Rattle.std.specs.Prelude.{◌≡◌, ◌+◌, ◌++◌, [], List, OnOk};
ghost use Rattle.cg_netlist.specs.History.{Moment};
ghost use Rattle.cg_stimulus.specs.Inputs.{IsFor};
ghost use Rattle.cg_stimulus.specs.Played.{IsPlayed};
ghost use Rattle.cg_report.specs.Place.{MayWatch};
ghost use Rattle.cg_report.specs.RowLines.{rows_text};
ghost use Rattle.cg_report.specs.Watched.{watched_line};
ghost use Rattle.cg_report.specs.inner.RowByRow.{HasRow, IsFirst};
ghost use Rattle.cg_report.specs.inner.Watching.{WatchesRow};

use crate::player::Player;
use crate::rows::{push_edges, push_outputs};
use crate::showing::{begin, push_line};
use crate::watcher::Watcher;
use cg_netlist::netlist::Netlist;
use cg_stimulus::played::one_played_history;
use cg_stimulus::stimulus::Stimulus;
use cg_text::number::push_number;
use std::alloc::{AllocError, Global};

/// Puts the lines of the rows behind a text, where they are played on the netlist, then the line of the edges, and then the
/// line of the watcher, which begins anew and is shown each moment once.
///
/// The netlist's data inputs must begin with those for which the stimulus is.
pub fn push_watched_rows(
    alloc: Global,
    netlist: &Netlist,
    stimulus: &Stimulus,
    watcher: &mut Box<dyn Watcher>,
    text: &mut Vec<u8>,
) -> Result<(), AllocError>
    requires { IsFor netlist.now stimulus.now }
    ensures said { OnOk result ((history : List Moment) → IsPlayed netlist.now stimulus.now.rows history
        → text.new.items ≡ text.old.items ++ rows_text netlist.now history ++ watched_line (says watcher.old) netlist.now stimulus.now.rows history) }
    ensures same_name { called watcher.new ≡ called watcher.old }
    ensures same_kind { says watcher.new ≡ says watcher.old }
{
    one_played_history(netlist, stimulus);
    begin(netlist, watcher)?;
    let mut player = Player::new(alloc, netlist, stimulus)?;
    push_all(&mut player, stimulus.rows(), watcher, text)
}

/// Plays all rows, shows them to a watcher that has begun, and puts their lines, that of the edges and that of the watcher behind
/// the text.
fn push_all(
    player: &mut Player<'_>,
    rows: u32,
    watcher: &mut Box<dyn Watcher>,
    text: &mut Vec<u8>,
) -> Result<(), AllocError>
    requires first { IsFirst rows player.old }
    requires begun { stands watcher.old player.old.simulated.circuit [] }
    ensures said { OnOk result ((history : List Moment) → IsPlayed player.old.simulated.circuit player.old.rows history
        → text.new.items ≡ text.old.items ++ rows_text player.old.simulated.circuit history
        ++ watched_line (says watcher.old) player.old.simulated.circuit player.old.rows history) }
    ensures same_name { called watcher.new ≡ called watcher.old }
    ensures same_kind { says watcher.new ≡ says watcher.old }
{
    'rows: for row in 0..rows {
        push_watched_row(player, row, watcher, text)?;
    }
    player.show(watcher)?;
    push_edges(player.edges(), text)?;
    push_line(watcher, text)
}

/// Plays both moments of a row, shows them to a watcher, and puts the row's line behind the text; rows are numbered from 0, and
/// in their lines from 1.
fn push_watched_row(
    player: &mut Player<'_>,
    row: u32,
    watcher: &mut Box<dyn Watcher>,
    text: &mut Vec<u8>,
) -> Result<(), AllocError>
    requires row { HasRow player.old.left }
    requires watch { MayWatch (stands watcher.old) player.old }
    ensures watches { OnOk result (WatchesRow (stands watcher.old) (stands watcher.new) (row + 1) player.old player.new text.old.items text.new.items) }
    ensures same_name { called watcher.new ≡ called watcher.old }
    ensures same_kind { says watcher.new ≡ says watcher.old }
{
    push_number(text, u64::from(row) + 1)?;
    player.show(watcher)?;
    push_outputs(player.simulator(), text)?;
    player.show(watcher)?;
    push_outputs(player.simulator(), text)?;
    text.push(b'\n')?;
    Ok(())
}
