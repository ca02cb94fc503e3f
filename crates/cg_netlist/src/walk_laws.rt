//! What is true of walk order, and of the bits that a walk leaves.

ghost use Rattle.cg_netlist.specs.WalkLaws.{ClockIsApart, GaterOrderIsWalk, NetsAreAll, NetsSettle, WalkLeavesMoment};
ghost use Rattle.cg_netlist.specs.WalkLaws.{WalkOrderIsWalk};

/// The laws of walks: walk order puts each logic cell behind those that drive its inputs, and the order of gating cells
/// each behind the one that drives its clock pin; the bits of all nets, as a function of the given ones, settle, and no
/// others do; a walk over the given bits of a moment leaves that moment; and no net but the clock shows its bit, other
/// than through gating cells and registers.
///
/// The call does nothing; callers use what it ensures.
pub fn walk_laws()
    ensures order { WalkOrderIsWalk }
    ensures gates { GaterOrderIsWalk }
    ensures settle { NetsSettle }
    ensures only { NetsAreAll }
    ensures leaves { WalkLeavesMoment }
    ensures clock { ClockIsApart }
{}
