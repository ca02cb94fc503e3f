//! What is proved of the machine of a netlist with gating cells.

ghost use Rattle.cg_extract.specs.Chained.{EnablesAreChained};
ghost use Rattle.cg_extract.specs.Laws.{BareIsNetlist, BareIsPlaceable, LiftedAsks, LiftedIsMachine, LiftedIsRun};
ghost use Rattle.cg_extract.specs.Laws.{LiftedIsSmall, LiftedOfUngated, LiftedOwn, LiftedShowsNets, UnrefusedHasNoTests};

/// The laws of extraction: what it makes is a machine, which meets no limit, and where no gating cell has a test pin, the lawful
/// history of the netlist has the bits of the registers and of the outputs of the machine's run. While the clock is low, each net
/// that is kept has the bit that the machine shows.
///
/// The enable of a gating cell is its enable net, or the and of the enable of the gating cell that drives its clock pin and its
/// own; a register behind a gating cell has the enable of that one.
///
/// What is left of the netlist is a netlist with its parts by name, is placeable where the netlist is, and is the machine's own.
/// Each gate is an and of two nets, and there is none where no gating cell stands behind another. Where there is no gating cell,
/// the machine is the netlist's own; where none is refused, none has a test pin.
///
/// The call does nothing; callers use what it ensures.
pub fn extract_laws()
    ensures machine { LiftedIsMachine }
    ensures small { LiftedIsSmall }
    ensures run { LiftedIsRun }
    ensures chained { EnablesAreChained }
    ensures netlist { BareIsNetlist }
    ensures placeable { BareIsPlaceable }
    ensures own { LiftedOwn }
    ensures asks { LiftedAsks }
    ensures ungated { LiftedOfUngated }
    ensures nets { LiftedShowsNets }
    ensures untested { UnrefusedHasNoTests }
{}
