// A run of a task: it starts at the initial state, makes its steps one by one, and is finished or stops at a fault.
// Each call uses the run up, and answers the run that goes on.
ghost use Rattle.std.specs.Prelude.{◌≡◌, ◌*◌, ◌≤◌, if◌then◌else◌, Some, None, Ok, Err, nat_eq, nat_lt};
ghost use Rattle.std.specs.Result.{result_err};
ghost use Rattle.words.specs.declared.fault.Refusal.TheVariants.{WrongWidth, GoalMissed};
ghost use Rattle.words.specs.Refusals.{run_fault};
ghost use Rattle.planning.specs.Truth.{truth};
ghost use Rattle.reading.specs.Parts.{formula_of};
ghost use Rattle.reading.specs.Trees.{task_tree};
ghost use Rattle.outcomes.specs.Laws.{StepDecided, FinishDecided};
ghost use Rattle.outcomes.specs.Runs.{step_refusal};
ghost use Rattle.running.specs.Answers.{FinishAnswer};
ghost use Rattle.running.specs.Stepping.{NextAnswer};

use crate::step::{Stepped, step};
use outcomes::reached::may_go_on;
pub use outcomes::reached::{Accepted, MOST_STEPS};
use tasks::part::FormulaPart;
use tasks::state::State;
use tasks::task::Task;
use valuing::truth::is_true;
use words::fault::{Fault, Refusal};

// A run that goes on: its state, its steps so far, and their changes of variables.
pub struct Running {
    state: State,
    steps: u32,
    changes: u32,
    ghost few: { steps ≤ 4096 },
    ghost bounded: { changes ≤ 64 * steps },
}

// A run that has stopped at a fault.
pub struct Stopped {
    fault: Fault,
}

// The next step of a run that is in that state, by the operator of that number.
// State and steps come as two numbers: a step uses its run up, so this can be no method that borrows the run.
fn next_step(task: &Task<'_>, state: State, made: u32, number: u32) -> Result<Stepped, Fault>
    ensures { NextAnswer (task_tree task.now.words.now) state.width state.bits made number result }
{
    if state.width() != task.width() {
        return Err(Fault::run(Refusal::WrongWidth, made, 0));
    }
    if !may_go_on(made) {
        return Err(Fault::run(Refusal::TooLong, made, 0));
    }
    let Ok(operator) = task.operator(number) else {
        return Err(Fault::run(Refusal::NoSuchOperator, made, 0));
    };
    step(operator, state, made)
}

// Refused if a run that is in that state after so many steps cannot be finished.
fn check_goal(goal: FormulaPart<'_>, state: State, made: u32) -> Result<(), Fault>
    ensures { result_err result ≡ (if nat_eq goal.entry.width state.width then (if truth state.bits (formula_of goal.entry.words.now) then None else Some (run_fault GoalMissed made goal.entry.place)) else Some (run_fault WrongWidth made 0)) }
{
    let Ok(reached) = is_true(goal, state) else {
        return Err(Fault::run(Refusal::WrongWidth, made, 0));
    };
    if reached {
        Ok(())
    } else {
        Err(Fault::run(Refusal::GoalMissed, made, goal.place()))
    }
}

impl Running {
    ghost use Rattle.running.specs.Moves.{RunAnswer};

    // A run at the initial state of the task.
    pub fn start(task: &Task<'_>) -> Running
        ensures width { result.state.width ≡ (task_tree task.now.words.now).width }
        ensures bits { result.state.bits ≡ (task_tree task.now.words.now).initial }
        ensures steps { result.steps ≡ 0 }
        ensures changes { result.changes ≡ 0 }
    {
        Running {
            state: task.initial(),
            steps: 0,
            changes: 0,
        }
    }

    // Makes the operator of that number the next step.
    pub fn step(self, task: &Task<'_>, number: u32) -> Result<Running, Stopped>
        ensures answer { RunAnswer (task_tree task.now.words.now) number self result }
        ensures decided { StepDecided (task_tree task.now.words.now) self.state.width self.state.bits self.steps number }
    {
        self.moved(task, number)
    }

    // The run after that step, or the fault at which it stops.
    fn moved(self, task: &Task<'_>, number: u32) -> Result<Running, Stopped>
        ensures { RunAnswer (task_tree task.now.words.now) number self result }
    {
        let Running {
            state,
            steps,
            changes,
        } = self;
        let stepped = next_step(task, state, steps, number).map_err(|fault| Stopped { fault })?;
        Ok(Running {
            state: stepped.state,
            steps: steps + 1,
            changes: changes + stepped.changes,
        })
    }

    // Accepts the run if the goal of the task is true in its state.
    pub fn finish(self, task: &Task<'_>) -> Result<Accepted, Fault>
        ensures answer { FinishAnswer (task_tree task.now.words.now) self.state self.steps self.changes result }
        ensures decided { FinishDecided (task_tree task.now.words.now) self.state.width self.state.bits self.steps }
    {
        let Running {
            state,
            steps,
            changes,
        } = self;
        check_goal(task.goal(), state, steps)?;
        Ok(Accepted {
            steps,
            changes,
            end: state,
        })
    }

    pub fn state(&self) -> State
        ensures { result ≡ self.now.state }
    {
        self.state
    }

    pub fn steps(&self) -> u32
        ensures { result ≡ self.now.steps }
    {
        self.steps
    }

    pub fn changes(&self) -> u32
        ensures { result ≡ self.now.changes }
    {
        self.changes
    }
}

impl Stopped {
    // Why the run has stopped.
    pub fn fault(self) -> Fault
        ensures { result ≡ self.fault }
    {
        let Stopped { fault } = self;
        fault
    }
}

impl From<Stopped> for Fault {
    ghost from_gives = { λ stopped r. r ≡ stopped.fault };

    fn from(stopped: Stopped) -> Fault {
        stopped.fault()
    }
}
