//! A watcher that is shown the rows while they are played.

ghost use Rattle.std.specs.Prelude.{◌≡◌, ◌++◌, ◌∷◌, [], List, OnOk};
ghost use Rattle.cg_netlist.specs.Circuit.{Circuit};
ghost use Rattle.cg_report.specs.Place.{MayWatch};
ghost use Rattle.cg_report.specs.Shown.{Shown};
ghost use Rattle.cg_report.specs.inner.RowByRow.{HasRow};
ghost use Rattle.cg_report.specs.inner.Watching.{ShowsRow};

use crate::player::Player;
use crate::watcher::Watcher;
use cg_netlist::netlist::Netlist;
use std::alloc::AllocError;

/// Begins a watcher with a netlist.
pub(crate) fn begin(netlist: &Netlist, watcher: &mut Box<dyn Watcher>) -> Result<(), AllocError>
    ensures begun { OnOk result (stands watcher.new netlist.now []) }
    ensures same_name { called watcher.new ≡ called watcher.old }
    ensures same_kind { says watcher.new ≡ says watcher.old }
{
    watcher.begin(netlist)
}

/// Plays both moments of a row, and shows them to a watcher.
pub(crate) fn show_row(
    player: &mut Player<'_>,
    watcher: &mut Box<dyn Watcher>,
) -> Result<(), AllocError>
    requires row { HasRow player.old.left }
    requires watch { MayWatch (stands watcher.old) player.old }
    ensures shows { OnOk result (ShowsRow (stands watcher.old) (stands watcher.new) player.old player.new) }
    ensures same_name { called watcher.new ≡ called watcher.old }
    ensures same_kind { says watcher.new ≡ says watcher.old }
{
    player.show(watcher)?;
    player.show(watcher)?;
    Ok(())
}

/// Puts the line of a watcher behind the text.
pub(crate) fn push_line(watcher: &Box<dyn Watcher>, text: &mut Vec<u8>) -> Result<(), AllocError>
    ensures { OnOk result ((c : Circuit) (moments : List Shown) → stands watcher.now c moments
        → text.new.items ≡ text.old.items ++ says watcher.now c moments ++ 10 ∷ []) }
{
    watcher.line(text)?;
    text.push(b'\n')?;
    Ok(())
}
