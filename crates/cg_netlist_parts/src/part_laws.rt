//! What is true of parts by name, of their faults, and of the netlists that they say.
//!
//! Each law is what a call ensures that does nothing: so it is proved as every contract is, and callers can use it.

ghost use Rattle.cg_netlist_parts.specs.Laws.{AtLeastOne, AtMostOne, FaultOrNone, NoFault, NoneBeside, OneFault, OwnParts};
ghost use Rattle.cg_netlist_parts.specs.Laws.{SaidByItsParts, SaidIsNetlist, SaidIsPlaceable, SaidIsWritable, SaidMore, WritableIsSaid};

/// Parts that have no fault say one netlist, and parts that have one say none.
pub fn one_netlist_said()
    ensures most { AtMostOne }
    ensures beside { NoneBeside }
    ensures least { AtLeastOne }
{}

/// Parts have one first fault, or none.
pub fn one_first_fault()
    ensures some { FaultOrNone }
    ensures one { OneFault }
    ensures none { NoFault }
{}

/// A netlist is said by its own parts, also where registers on its clock do not name it.
pub fn said_by_own_parts()
    ensures own { OwnParts }
    ensures left_out { SaidByItsParts }
{}

/// What parts say is a netlist.
pub fn said_is_netlist()
    ensures { SaidIsNetlist }
{}

/// What parts that can be placed say is placeable.
pub fn placed_is_placeable()
    ensures { SaidIsPlaceable }
{}

/// The writable netlists are those that parts say of which each is one that a line can say.
pub fn writable_is_said_by_lines()
    ensures said { WritableIsSaid }
    ensures writable { SaidIsWritable }
{}

/// A part more says one thing more.
pub fn said_part_by_part()
    ensures { SaidMore }
{}
