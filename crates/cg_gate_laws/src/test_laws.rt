//! What is proved of plans for gating cells with a test input.

ghost use Rattle.cg_gate_laws.specs.TestLaws.{PlansAreTestSafe, TestLoadsAll, TestRunShowsNetlist};

/// The laws of plans with a test input: whatever the test bits are, the test run of the plan's machine shows, from every start
/// with 1 in the delay registers and over every waveform, what the machine shows that the plan begins with; and where the test
/// bit is 1, every register takes its function.
///
/// The call does nothing; callers use what it ensures.
pub fn test_input_laws()
    ensures safe { PlansAreTestSafe }
    ensures netlist { TestRunShowsNetlist }
    ensures loads { TestLoadsAll }
{}
