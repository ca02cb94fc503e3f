//! What a file is to a run.

/// What a file is to a run: whichever place it has among the words, it is known by its role.
#[derive(Clone, Copy, Debug, PartialEq, Eq)]
pub enum Role {
    /// The cells that a netlist may place.
    Library,
    /// The circuit.
    Netlist,
    /// What the data inputs of a circuit do.
    Stimulus,
    /// A formula whose clauses are to be refuted.
    Formula,
    /// A proof log for a formula.
    Log,
    /// The written netlist.
    Out,
    /// The formulas and logs of a plan.
    Proof,
    /// What became of each stage of a plan.
    Report,
    /// The written netlist as a Verilog text.
    Verilog,
    /// Why each register is gated, or why it is not.
    Registers,
    /// Conditions of the engineer's own.
    Hints,
}
