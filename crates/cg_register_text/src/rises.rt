//! How often each register of a netlist rises where a stimulus is played on it.

ghost use Rattle.std.specs.Prelude.{◌≡◌, ◌≤◌, ◌<◌, ◌*◌, ◌∷◌, List, length, replicate, IfOk, Some};
ghost use Rattle.std.specs.List.{All};
ghost use Rattle.std.specs.Option.{option_copied};
ghost use Rattle.cg_limit.specs.declared.TheConstants.{MOST_REGISTERS, MOST_ROWS};
ghost use Rattle.cg_netlist.specs.History.{Moment, Tick};
ghost use Rattle.cg_netlist.specs.Moment.{zip_with};
ghost use Rattle.cg_report.specs.inner.RowByRow.{HasRow};
ghost use Rattle.cg_stimulus.specs.Inputs.{IsFor, Rows};
ghost use Rattle.cg_stimulus.specs.Played.{IsPlayed};
ghost use Rattle.cg_register_text.specs.Rises.{AreRises, FewRises, RisesWhere, rises_of};
ghost use Rattle.cg_register_text.specs.inner.RiseCounting.{CountsMoment, CountsRow, counted};

use cg_list::Seq;
use cg_netlist::netlist::Netlist;
use cg_report::player::Player;
use cg_stimulus::played::one_played_history;
use cg_stimulus::stimulus::Stimulus;
use std::alloc::{AllocError, Global};

/// How often each register of the netlist that was read, and each of the written one, rises over one stimulus.
#[derive(Debug, Drop)]
pub struct BothRises {
    pub original: Seq<u32>,
    pub written: Seq<u32>,
}

/// How often each register of both netlists rises where a stimulus is played on them, if there is one.
///
/// The data inputs of both must begin with those for which the stimulus is. They are played once each.
pub fn both_rises(
    alloc: Global,
    read: &Netlist,
    written: &Netlist,
    stimulus: Option<&Stimulus>,
) -> Result<Option<BothRises>, AllocError>
    requires read { (rows : Rows) → option_copied stimulus ≡ Some rows → IsFor read.now rows }
    requires written { (rows : Rows) → option_copied stimulus ≡ Some rows → IsFor written.now rows }
    ensures rises { IfOk result (λ rises. RisesWhere (option_copied stimulus.entry) read.now written.now rises) }
    ensures few { IfOk result (λ rises. FewRises rises) }
{
    match stimulus {
        None => Ok(None),
        Some(stimulus) => Ok(Some(played_rises(alloc, read, written, stimulus)?)),
    }
}

/// How often each register of both netlists rises where a stimulus is played on them.
fn played_rises(
    alloc: Global,
    read: &Netlist,
    written: &Netlist,
    stimulus: &Stimulus,
) -> Result<BothRises, AllocError>
    requires read { IsFor read.now stimulus.now }
    requires written { IsFor written.now stimulus.now }
    ensures rises { IfOk result (λ rises. AreRises stimulus.now.rows read.now written.now rises) }
    ensures few { IfOk result (λ rises. FewRises (Some rises)) }
{
    one_played_history(read, stimulus);
    one_played_history(written, stimulus);
    let original = register_rises(alloc, read, stimulus)?;
    let written = register_rises(alloc, written, stimulus)?;
    Ok(BothRises {
        original: Seq::from_vec(original),
        written: Seq::from_vec(written),
    })
}

/// For each register of a netlist, in register order, how often it rises where the rows are played on the netlist.
///
/// The netlist's data inputs must begin with those for which the stimulus is.
pub fn register_rises(
    alloc: Global,
    netlist: &Netlist,
    stimulus: &Stimulus,
) -> Result<Vec<u32>, AllocError>
    requires { IsFor netlist.now stimulus.now }
    ensures count { IfOk result (λ rises. length rises.items ≡ length netlist.now.registers) }
    ensures few { IfOk result (λ rises. length rises.items ≤ MOST_REGISTERS) }
    ensures rises { IfOk result (λ rises. (history : List Moment) → IsPlayed netlist.now stimulus.now.rows history
        → rises.items ≡ rises_of netlist.now history) }
{
    one_played_history(netlist, stimulus);
    let mut rises = no_rises(alloc, netlist)?;
    let mut player = Player::new(alloc, netlist, stimulus)?;
    'rows: for _row in 0..stimulus.rows() {
        play_row(&mut player, &mut rises);
    }
    play_moment(&mut player, &mut rises);
    Ok(rises)
}

/// A zero for each register.
fn no_rises(alloc: Global, netlist: &Netlist) -> Result<Vec<u32>, AllocError>
    ensures few { length netlist.now.registers ≤ MOST_REGISTERS }
    ensures zeros { IfOk result (λ rises. rises.items ≡ replicate (length netlist.now.registers) 0) }
{
    vec![in alloc; 0; netlist.registers() as usize]
}

/// Plays both moments of a row, and counts the registers that rise at each.
fn play_row(player: &mut Player<'_>, rises: &mut [u32])
    requires row { HasRow player.old.left }
    requires registers { length rises.old ≡ length player.old.simulated.circuit.registers }
    requires room { All (λ n. n < 2 * MOST_ROWS) rises.old }
    ensures { CountsRow player.old player.new rises.old rises.new }
{
    play_moment(player, rises);
    play_moment(player, rises);
}

/// Plays the next moment, and counts the registers that rise at it.
fn play_moment(player: &mut Player<'_>, rises: &mut [u32])
    requires moment { (tick : Tick) × (later : List Tick) × (player.old.left ≡ tick ∷ later) }
    requires registers { length rises.old ≡ length player.old.simulated.circuit.registers }
    requires room { All (λ n. n ≤ 2 * MOST_ROWS) rises.old }
    ensures { CountsMoment player.old player.new rises.old rises.new }
{
    player.step();
    count_rises(player.simulator().rises(), rises);
}

/// Counts one more at each register that rose.
fn count_rises(rose: &[bool], rises: &mut [u32])
    requires registers { length rose.now ≡ length rises.old }
    requires room { All (λ n. n ≤ 2 * MOST_ROWS) rises.old }
    ensures { rises.new ≡ zip_with counted rose.now rises.old }
{
    for register in 0..rises.len() {
        if rose[register] {
            rises[register] += 1;
        }
    }
}
