// The laws of outcomes and verdicts: each function stands for the law that its contract says.
ghost use Rattle.std.specs.Prelude.{ℕ, List};
ghost use Rattle.planning.specs.Tree.{TaskTree};
ghost use Rattle.outcomes.specs.Laws.{StepDecided, FinishDecided, PlanDecided, FaultsInOrder, AcceptsWhenSolved};
ghost use Rattle.outcomes.specs.Worked.{WorkedExamples};

// A step is made exactly when the operator fits and the run may go on; it leads where the relation of steps says.
pub fn step_decided()
    ensures { (t : TaskTree) (width : ℕ) (s : ℕ) (made : ℕ) (k : ℕ) → StepDecided t width s made k }
{}

// A run is finished exactly when its state makes the goal true.
pub fn finish_decided()
    ensures { (t : TaskTree) (width : ℕ) (s : ℕ) (made : ℕ) → FinishDecided t width s made }
{}

// A plan is accepted exactly when it solves the task in at most 4,096 steps; the first step that fails decides the fault.
pub fn plan_decided()
    ensures { (t : TaskTree) (plan : List ℕ) → PlanDecided t plan }
{}

// Of the faults before the run, that of the task's file comes first, then the task's, then that of the plan's file.
pub fn faults_in_order()
    ensures { (task : List ℕ) (plan : List ℕ) → FaultsInOrder task plan }
{}

// The line begins ACCEPT exactly when the files hold a task and a plan that solves it.
pub fn accepts_when_solved()
    ensures { (task : List ℕ) (plan : List ℕ) → AcceptsWhenSolved task plan }
{}

// The worked examples.
pub fn worked_examples()
    ensures { WorkedExamples }
{}
