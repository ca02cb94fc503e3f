//! What is true of placed cells and of the parts that they are.
//!
//! Each law is what a call ensures that does nothing: so it is proved as every contract is, and callers can use it.

ghost use Rattle.cg_netlist_placed.specs.Laws.{FlopIsPlaced, GaterIsPlaced, LogicIsPlaced, PlacedFits};

/// A placed cell of a library is such a part as a builder takes, and as can be placed with the library.
pub fn placed_cell_fits()
    ensures { PlacedFits }
{}

/// A part of a library is placed by the pins of its cell with its nets.
pub fn part_is_placed()
    ensures logic { LogicIsPlaced }
    ensures gater { GaterIsPlaced }
    ensures register { FlopIsPlaced }
{}
