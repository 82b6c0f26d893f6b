// The steps of a plan, each with what it needs, what it does and what it changes, or why it is refused.
use crate::refused::Reason;
use crate::sentences::print_plan_head;
use crate::text::{Changes, TrueVariables, effect_text, formula_text};
use running::run::Running;
use std::alloc::{AllocError, Global};
use std::io;
use tasks::state::State;
use tasks::task::Task;
use words::fault::Fault;

// Parts of more words are not told again at each step.
const FEW_WORDS: usize = 32;

fn is_long(words: &[u32]) -> bool {
    words.len() > FEW_WORDS
}

// What stands in place of a long part.
fn listed_above(heap: Global) -> Result<String, AllocError> {
    String::from_str(heap, "what is listed above")
}

// A step that the plan asks for: the steps made before it, the operator's number, and the state in which it is made.
#[derive(Clone, Copy)]
struct Step<'a> {
    task: &'a Task<'a>,
    made: u32,
    number: u32,
    before: State,
}

impl Step<'_> {
    // The step's number and its operator's; what the operator needs and what it does, if the task has it.
    fn print_operator(&self, rt: &(impl Print + AllocGlobal)) -> io::Result<()> {
        print!(rt; "  step {}: operator {}", self.made, self.number)?;
        let Ok(operator) = self.task.operator(self.number) else {
            return Ok(());
        };
        let heap = rt.alloc();
        let precondition = operator.precondition();
        let needs = if is_long(precondition.words()) {
            listed_above(heap)?
        } else {
            formula_text(heap, precondition)?
        };
        let effect = operator.effect();
        let does = if is_long(effect.words()) {
            listed_above(heap)?
        } else {
            effect_text(heap, effect)?
        };
        print!(rt; " needs {needs}; does {does};")
    }

    // The step is made, and leads to the state.
    fn print_made(&self, rt: &(impl Print + AllocGlobal), after: State) -> io::Result<()> {
        self.print_operator(rt)?;
        let changes = Changes {
            before: self.before,
            after,
        };
        println!(rt; " changes {changes}; then true: {}", TrueVariables(after))
    }

    // The step is refused with the fault.
    fn print_refused(&self, rt: &(impl Print + AllocGlobal), fault: Fault) -> io::Result<()> {
        self.print_operator(rt)?;
        let reason = Reason {
            task: self.task,
            number: self.number,
            fault,
        };
        let now = TrueVariables(self.before);
        println!(rt; " refused, since {reason}; true there: {now}")
    }
}

// Makes a step and tells it: the run after it, or none if the step is refused. A run that cannot be told is finished.
fn tell_step(
    rt: &(impl Print + AllocGlobal),
    task: &Task<'_>,
    running: Running,
    number: u32,
) -> io::Result<Option<Running>> {
    let step = Step {
        task,
        made: running.steps(),
        number,
        before: running.state(),
    };
    match running.step(task, number) {
        Ok(next) => match step.print_made(rt, next.state()) {
            Ok(()) => Ok(Some(next)),
            Err(error) => {
                let _ = next.finish(task);
                Err(error)
            }
        },
        Err(stopped) => {
            step.print_refused(rt, stopped.fault())?;
            Ok(None)
        }
    }
}

// Makes the plan's steps and tells each of them, up to the first that is refused.
pub fn print_steps(
    rt: &(impl Print + AllocGlobal),
    task: &Task<'_>,
    plan: &[u32],
) -> io::Result<()> {
    print_plan_head(rt, plan)?;
    let mut running = Running::start(task);
    for number in plan {
        running = match tell_step(rt, task, running, *number)? {
            Some(next) => next,
            None => return Ok(()),
        };
    }
    let _ = running.finish(task);
    Ok(())
}
