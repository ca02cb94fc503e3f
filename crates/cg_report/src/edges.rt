//! The edges of rows that are played.

ghost use Rattle.std.specs.Prelude.{◌≡◌, ◌++◌, [], List, IfOk, OnOk};
ghost use Rattle.cg_netlist.specs.History.{Moment, edges};
ghost use Rattle.cg_stimulus.specs.Inputs.{IsFor};
ghost use Rattle.cg_stimulus.specs.Played.{IsPlayed};
ghost use Rattle.cg_report.specs.Watched.{watched_line};
ghost use Rattle.cg_report.specs.inner.RowByRow.{IsFirst};

use crate::player::Player;
use crate::showing::{begin, push_line, show_row};
use crate::watcher::Watcher;
use cg_netlist::netlist::Netlist;
use cg_stimulus::played::one_played_history;
use cg_stimulus::stimulus::Stimulus;
use std::alloc::{AllocError, Global};

/// The edges of the history on which the rows are played.
///
/// The netlist's data inputs must begin with those for which the stimulus is.
pub fn count_edges(alloc: Global, netlist: &Netlist, stimulus: &Stimulus) -> Result<u64, AllocError>
    requires { IsFor netlist.now stimulus.now }
    ensures { IfOk result (λ count. (history : List Moment) → IsPlayed netlist.now stimulus.now.rows history → count ≡ edges netlist.now history) }
{
    if netlist.gaters() == 0 {
        return Ok(edges_on_clock(netlist, stimulus));
    }
    play_edges(alloc, netlist, stimulus)
}

/// The edges of a netlist without gating cells, which nobody has to play: each register is on the clock, and rises once in each
/// row.
fn edges_on_clock(netlist: &Netlist, stimulus: &Stimulus) -> u64
    requires none { netlist.now.gaters ≡ [] }
    ensures { (history : List Moment) → IsPlayed netlist.now stimulus.now.rows history → result ≡ edges netlist.now history }
{
    stimulus.rows() as u64 * netlist.registers() as u64
}

/// The edges of a netlist on which the rows are played, moment by moment.
fn play_edges(alloc: Global, netlist: &Netlist, stimulus: &Stimulus) -> Result<u64, AllocError>
    requires { IsFor netlist.now stimulus.now }
    ensures { IfOk result (λ count. (history : List Moment) → IsPlayed netlist.now stimulus.now.rows history → count ≡ edges netlist.now history) }
{
    one_played_history(netlist, stimulus);
    let mut player = Player::new(alloc, netlist, stimulus)?;
    'rows: for _row in 0..stimulus.rows() {
        player.step();
        player.step();
    }
    player.step();
    Ok(player.edges())
}

/// The edges of the history on which the rows are played; and puts behind a text the line of a watcher, which begins anew and
/// is shown each moment once.
///
/// The netlist's data inputs must begin with those for which the stimulus is.
pub fn watch_edges(
    alloc: Global,
    netlist: &Netlist,
    stimulus: &Stimulus,
    watcher: &mut Box<dyn Watcher>,
    text: &mut Vec<u8>,
) -> Result<u64, AllocError>
    requires { IsFor netlist.now stimulus.now }
    ensures edges { IfOk result (λ count. (history : List Moment) → IsPlayed netlist.now stimulus.now.rows history → count ≡ edges netlist.now history) }
    ensures said { OnOk result ((history : List Moment) → IsPlayed netlist.now stimulus.now.rows history
        → text.new.items ≡ text.old.items ++ watched_line (says watcher.old) netlist.now stimulus.now.rows history) }
    ensures same_name { called watcher.new ≡ called watcher.old }
    ensures same_kind { says watcher.new ≡ says watcher.old }
{
    one_played_history(netlist, stimulus);
    begin(netlist, watcher)?;
    let mut player = Player::new(alloc, netlist, stimulus)?;
    watch_all(&mut player, stimulus.rows(), watcher, text)
}

/// Plays all rows and shows them to a watcher that has begun; answers their edges, and puts the watcher's line behind the text.
fn watch_all(
    player: &mut Player<'_>,
    rows: u32,
    watcher: &mut Box<dyn Watcher>,
    text: &mut Vec<u8>,
) -> Result<u64, AllocError>
    requires first { IsFirst rows player.old }
    requires begun { stands watcher.old player.old.simulated.circuit [] }
    ensures edges { IfOk result (λ count. (history : List Moment) → IsPlayed player.old.simulated.circuit player.old.rows history
        → count ≡ edges player.old.simulated.circuit history) }
    ensures said { OnOk result ((history : List Moment) → IsPlayed player.old.simulated.circuit player.old.rows history
        → text.new.items ≡ text.old.items ++ watched_line (says watcher.old) player.old.simulated.circuit player.old.rows history) }
    ensures same_name { called watcher.new ≡ called watcher.old }
    ensures same_kind { says watcher.new ≡ says watcher.old }
{
    'rows: for _row in 0..rows {
        show_row(player, watcher)?;
    }
    player.show(watcher)?;
    push_line(watcher, text)?;
    Ok(player.edges())
}
