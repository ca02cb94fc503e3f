//! What is proved of plans.

ghost use Rattle.cg_plan_laws.specs.Laws.{CertificatesAreReported, EachFits, InsertedExactly, InsertedIsSafe};
ghost use Rattle.cg_plan_laws.specs.Laws.{PlanHasCells, PlanIsSafe, PlanShowsNetlist, StagesAreReported, ReportedIsSafe};
ghost use Rattle.cg_plan_laws.specs.Outcomes.{OutcomesAreDeserved};

/// The laws of plans: a stage is inserted exactly where its claims hold and are narrow, it can idle, it is large enough, the
/// library has its cells and no limit is passed; and every other outcome says what is so of the stage. Each stage of a plan
/// fits the machine at its turn. The machine of a plan shows, from every start with 1 in the delay registers and over every
/// waveform, what the machine shows that the plan begins with. What is told of a plan may be told turn by turn.
///
/// The call does nothing; callers use what it ensures.
pub fn plan_laws()
    ensures exactly { InsertedExactly }
    ensures deserved { OutcomesAreDeserved }
    ensures safe { InsertedIsSafe }
    ensures turns { EachFits }
    ensures plan { PlanIsSafe }
    ensures cells { PlanHasCells }
    ensures netlist { PlanShowsNetlist }
    ensures told { ReportedIsSafe }
    ensures stages { StagesAreReported }
    ensures certificates { CertificatesAreReported }
{}
