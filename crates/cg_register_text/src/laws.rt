//! What is proved of causes and of rises.

ghost use Rattle.cg_register_text.specs.Laws.{CausesMean, HintsAreTold, HintsStand, KindsAddUp, RisesAreEdges, StagesAreTold, TextIsKept};
ghost use Rattle.cg_register_text.specs.Laws.{WidthsAreKept};

/// The laws of causes: each says of its register what it is to say, of the hints and the plan by which the netlist was gated. The sums of
/// the kinds add up to the registers. The plan's machine gives the same causes, and so the same text, as the machine with which the plan
/// began, and so do hints and stages as they are told. The rises of the registers of a netlist are its edges.
///
/// The call does nothing; callers use what it ensures.
pub fn register_laws()
    ensures mean { CausesMean }
    ensures kinds { KindsAddUp }
    ensures widths { WidthsAreKept }
    ensures text { TextIsKept }
    ensures stages { StagesAreTold }
    ensures hints { HintsAreTold }
    ensures stand { HintsStand }
    ensures edges { RisesAreEdges }
{}
