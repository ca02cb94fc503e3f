//! What is proved of the netlist that a machine's enables make.

ghost use Rattle.cg_insert.specs.Insertion.{InsertionIsFormed, InsertionIsPlain, InsertionIsRight};

/// The laws of insertion: the netlist is well formed and in net order, and each lawful history of it has the bits of the
/// registers and of the outputs of the machine's run, or of its test run over the bits of the test input; its registers
/// rise where the clock rises and their enable, or the test input, was 1 a moment before.
///
/// The call does nothing; callers use what it ensures.
pub fn insertion_laws()
    ensures formed { InsertionIsFormed }
    ensures right { InsertionIsRight }
    ensures plain { InsertionIsPlain }
{}
