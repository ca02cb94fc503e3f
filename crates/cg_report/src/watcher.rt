//! Watchers: who is shown each moment of a history, and says a line of it at the end.

use cg_netlist::netlist::Netlist;
use std::alloc::AllocError;

/// Someone who is shown moments of a netlist, and then says a line of them.
///
/// A watcher has a name and a fixed kind, which is the text `says` that it says of a netlist and a list of moments. It
/// stands for a list of moments of a netlist: for none after it began, and for one more after each that it was shown.
/// After a refusal of `begin` or `moment` nothing is known of what it stands for.
pub trait Watcher: Drop {
    ghost use Rattle.std.specs.Prelude.{◌≡◌, ◌++◌, ◌∷◌, [], ℕ, List, OnOk};
    ghost use Rattle.cg_netlist.specs.Circuit.{Circuit};
    ghost use Rattle.cg_report.specs.Shown.{Shown, IsShown, MayShow};

    ghost called: { Self → List ℕ };

    ghost says: { Self → Circuit → List Shown → List ℕ };

    ghost stands: { Self → Circuit → List Shown → Type 0 };

    /// The name by which it is asked for.
    fn name(&self) -> &str
        ensures { result.now ≡ called self.now };

    /// Begins with a netlist. Whatever it stood for is forgotten.
    fn begin(&mut self, netlist: &Netlist) -> Result<(), AllocError>
        ensures same_name { called self.new ≡ called self.old }
        ensures same_kind { says self.new ≡ says self.old }
        ensures begun { OnOk result (stands self.new netlist.now []) };

    /// Takes the next moment: the clock's bit, the bit of each net, and for each register whether it rose.
    fn moment(&mut self, clock: bool, nets: &[bool], rose: &[bool]) -> Result<(), AllocError>
        requires { MayShow (stands self.old) (record { clock = clock; nets = nets.now; rose = rose.now }) }
        ensures same_name { called self.new ≡ called self.old }
        ensures same_kind { says self.new ≡ says self.old }
        ensures shown { OnOk result ((c : Circuit) (before : List Shown) → stands self.old c before
            → IsShown c (record { clock = clock; nets = nets.now; rose = rose.now })
            → stands self.new c (before ++ record { clock = clock; nets = nets.now; rose = rose.now } ∷ [])) };

    /// Puts its line behind the text, without an end of line.
    fn line(&self, out: &mut Vec<u8>) -> Result<(), AllocError>
        ensures { OnOk result ((c : Circuit) (moments : List Shown) → stands self.now c moments
            → out.new.items ≡ out.old.items ++ says self.now c moments) };
}
