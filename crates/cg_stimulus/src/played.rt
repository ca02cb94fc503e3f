//! A stimulus that is played on a netlist.

ghost use Rattle.std.specs.Prelude.{◌≡◌, List};
ghost use Rattle.cg_netlist.specs.History.{Moment, IsStart, IsWaveform};
ghost use Rattle.cg_stimulus.specs.Inputs.{IsFor};
ghost use Rattle.cg_stimulus.specs.Played.{IsPlayed, played_start, played_wave};

use crate::stimulus::Stimulus;
use cg_netlist::history::one_lawful_history;
use cg_netlist::netlist::Netlist;

/// The law of playing: where the netlist's data inputs begin with those for which the stimulus is, its registers' inits are a
/// start and the rows a waveform, so that there is one history on which they are played, and no other.
///
/// The call does nothing; callers use what it ensures.
pub fn one_played_history(netlist: &Netlist, stimulus: &Stimulus)
    requires { IsFor netlist.now stimulus.now }
    ensures start { IsStart netlist.now (played_start netlist.now) }
    ensures wave { IsWaveform netlist.now (played_wave netlist.now stimulus.now.rows) }
    ensures some { (history : List Moment) × IsPlayed netlist.now stimulus.now.rows history }
    ensures one { (history other : List Moment) → IsPlayed netlist.now stimulus.now.rows history
        → IsPlayed netlist.now stimulus.now.rows other → history ≡ other }
{
    one_lawful_history(netlist);
    let _ = stimulus.rows();
}
