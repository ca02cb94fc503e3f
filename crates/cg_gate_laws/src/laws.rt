//! What is proved of gated netlists.

ghost use Rattle.cg_gate_laws.specs.Laws.{BegunIsSafe, GatedBehaves, GatedIsFormed, GatedKeeps, GatedShowsSame, PlannedCanInsert};
ghost use Rattle.cg_gate_laws.specs.Laws.{PlannedKeeps, PlannedNames, RenamedFits};

/// The laws of gated netlists: the gated netlist is well formed, and from every start with 1 in the delay registers and over
/// every waveform, whatever an added test input does, its lawful history has at every moment the outputs of the original's. Data
/// inputs and outputs keep their names, and logic cells and registers stand as they were, but for the clocks of registers. The
/// original may have gating cells: with these lifted to enables hints of the engineer's own are tried, and with what they leave the
/// plan begins. A hint of the netlist fits that machine once its literals are renamed.
///
/// The call does nothing; callers use what it ensures.
pub fn gated_laws()
    ensures fits { RenamedFits }
    ensures begun { BegunIsSafe }
    ensures inserts { PlannedCanInsert }
    ensures formed { GatedIsFormed }
    ensures same { GatedShowsSame }
    ensures keeps { PlannedKeeps }
    ensures behaves { GatedBehaves }
    ensures names { PlannedNames }
    ensures parts { GatedKeeps }
{}
