//! How often each net is 0 at the low moments of the rows.

ghost use Rattle.std.specs.Prelude.{◌≡◌, ◌≤◌, ◌<◌, List, length, replicate, IfOk};
ghost use Rattle.std.specs.List.{All};
ghost use Rattle.cg_limit.specs.declared.TheConstants.{MOST_ROWS};
ghost use Rattle.cg_netlist.specs.History.{Moment};
ghost use Rattle.cg_stimulus.specs.Inputs.{IsFor};
ghost use Rattle.cg_stimulus.specs.Played.{IsPlayed};
ghost use Rattle.cg_report.specs.Zeros.{CountZeros};
ghost use Rattle.cg_report.specs.inner.ZeroCounting.{AreCounted, PlaysRow};
ghost use Rattle.cg_report.specs.inner.RowByRow.{HasRow};

use crate::player::Player;
use cg_netlist::netlist::Netlist;
use cg_stimulus::played::one_played_history;
use cg_stimulus::stimulus::Stimulus;
use std::alloc::{AllocError, Global};

/// For each net the number of rows at whose low moment it is 0, where the rows are played on the netlist.
///
/// The netlist's data inputs must begin with those for which the stimulus is.
pub fn row_zero_counts(
    alloc: Global,
    netlist: &Netlist,
    stimulus: &Stimulus,
) -> Result<Vec<u32>, AllocError>
    requires { IsFor netlist.now stimulus.now }
    ensures count { IfOk result (λ zeros. length zeros.items ≡ length netlist.now.names) }
    ensures most { IfOk result (λ zeros. All (λ n. n ≤ length stimulus.now.rows) zeros.items) }
    ensures zeros { IfOk result (λ zeros. (history : List Moment) → IsPlayed netlist.now stimulus.now.rows history
        → CountZeros netlist.now history zeros.items) }
{
    one_played_history(netlist, stimulus);
    let mut zeros = no_zeros(alloc, netlist)?;
    let mut player = Player::new(alloc, netlist, stimulus)?;
    'rows: for _row in 0..stimulus.rows() {
        play_row(&mut player, &mut zeros);
    }
    player.step();
    Ok(zeros)
}

/// A zero for each net.
fn no_zeros(alloc: Global, netlist: &Netlist) -> Result<Vec<u32>, AllocError>
    ensures { IfOk result (λ zeros. zeros.items ≡ replicate (length netlist.now.names) 0) }
{
    vec![in alloc; 0; netlist.nets() as usize]
}

/// Plays both moments of a row, and counts one more at each net that is 0 at the low one.
fn play_row(player: &mut Player<'_>, zeros: &mut [u32])
    requires row { HasRow player.old.left }
    requires nets { length zeros.old ≡ length player.old.simulated.circuit.names }
    requires room { All (λ n. n < MOST_ROWS) zeros.old }
    ensures { PlaysRow player.old player.new zeros.old zeros.new }
{
    player.step();
    count_zeros(player.simulator().nets(), zeros);
    player.step();
}

/// Counts one more at each net that is 0. Each count is written, so that no machine has to guess which ones are.
fn count_zeros(nets: &[bool], zeros: &mut [u32])
    requires nets { length nets.now ≡ length zeros.old }
    requires room { All (λ n. n < MOST_ROWS) zeros.old }
    ensures { AreCounted (length zeros.old) nets.now zeros.old zeros.new }
{
    for net in 0..zeros.len() {
        zeros[net] += u32::from(!nets[net]);
    }
}
