//! Truth tables of logic cells that have few inputs.
//!
//! A row of a table is the number whose binary digits are the bits of the inputs, the first of them the lowest.

ghost use Rattle.std.specs.Prelude.{◌≡◌, ◌<◌, ◌≤◌, ℕ, length, slice_get, Some};
ghost use Rattle.std.specs.List.{All};
ghost use Rattle.cg_netlist.specs.Circuit.{LogicCell};
ghost use Rattle.cg_netlist.specs.Moment.{values_at};
ghost use Rattle.cg_edge.specs.inner.Flat.{IsTruthTable, row_of};

use cg_net::id::{CellId, NetId};
use cg_netlist::netlist::Netlist;
use cg_word::words::function_word;

/// The most inputs of a cell that has a table: one of 64 rows.
pub(crate) const FEW: usize = 6;

/// For each of up to six inputs the word that has in the lane of each row the input's bit in that row.
const INPUTS: [u64; FEW] = [
    0xaaaa_aaaa_aaaa_aaaa,
    0xcccc_cccc_cccc_cccc,
    0xf0f0_f0f0_f0f0_f0f0,
    0xff00_ff00_ff00_ff00,
    0xffff_0000_ffff_0000,
    0xffff_ffff_0000_0000,
];

/// The table of a cell's function, where it has few inputs: the word of the function at the words of all rows.
pub(crate) fn table(netlist: &Netlist, id: CellId) -> u64
    requires cell { id < length netlist.now.cells }
    ensures { (cell : LogicCell ℕ) → slice_get netlist.now.cells id ≡ Some cell → length cell.inputs ≤ 6
        → IsTruthTable cell.function (length cell.inputs) result }
{
    let _nets = netlist.nets();
    let cell = netlist.cell(id);
    let count = cell.inputs.len();
    if count > FEW {
        return 0;
    }
    let words: [u64; FEW] = INPUTS;
    function_word(cell.function, &words[..count])
}

/// The row at which the present bits of some nets stand.
pub(crate) fn row(nets: &[bool], inputs: &[NetId]) -> u64
    requires few { length inputs.now ≤ 6 }
    requires nets { All (λ net. net < length nets.now) inputs.now }
    ensures row { result ≡ row_of (values_at nets.now inputs.now) }
    ensures small { result < 64 }
{
    let mut row = 0;
    for place in (0..inputs.len()).rev() {
        row = 2 * row + nets[inputs[place].number() as usize] as u64;
    }
    row
}
