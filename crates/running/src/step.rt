// One step: an operator applied in a state.
ghost use Rattle.std.specs.Prelude.{◌≡◌, ◌<◌, ◌≤◌, IfSome, None};
ghost use Rattle.std.specs.Result.{result_err};
ghost use Rattle.planning.specs.Changes.{change_count};
ghost use Rattle.planning.specs.Steps.{masked};
ghost use Rattle.tasks.specs.States.{state_refusal};
ghost use Rattle.running.specs.Stepping.{misfit_of, StepAnswer};

pub use outcomes::reached::Stepped;
use planning::change::Change;
use planning::variables::changed;
use tasks::part::Operator;
use tasks::state::State;
use valuing::change::change_of;
use valuing::truth::is_true;
use words::fault::{Fault, Refusal};

// The state after a change, which has to be one of the same width.
fn after(state: State, change: Change) -> State
    requires { state_refusal state.width (masked 64 state.bits change.set change.clear) ≡ None }
    ensures width { result.width ≡ state.width }
    ensures bits { result.bits ≡ masked 64 state.bits change.set change.clear }
{
    match State::new(state.width(), change.applied(state.bits())) {
        Ok(after) => after,
        Err(_) => unreachable(),
    }
}

// The step from one state to another.
fn between(before: State, end: State) -> Stepped
    ensures state { result.state ≡ end }
    ensures count { result.changes ≡ change_count 64 before.bits end.bits }
    ensures few { result.changes ≤ 64 }
{
    Stepped {
        state: end,
        changes: changed(before.bits(), end.bits()),
    }
}

// Refused if an operator does not fit: its precondition is false, or a variable is set and cleared together.
fn check_fit(
    operator: Operator<'_>,
    holds: bool,
    clash: Option<u32>,
    made: u32,
) -> Result<(), Fault>
    requires { IfSome clash (λ v. v < 64) }
    ensures { result_err result ≡ misfit_of holds clash operator.entry.precondition.place operator.entry.effect.place made }
{
    if holds {
        match clash {
            Some(variable) => {
                let place = operator.effect().place() + variable;
                Err(Fault::run(Refusal::SetAndCleared, made, place))
            }
            None => Ok(()),
        }
    } else {
        let place = operator.precondition().place();
        Err(Fault::run(Refusal::PreconditionFalse, made, place))
    }
}

// Applies the operator in the state, in which a run has come after so many steps.
// Refused if its width is not the state's, if its precondition is false there, or if its effect sets and clears one
// variable together.
pub fn step(operator: Operator<'_>, state: State, made: u32) -> Result<Stepped, Fault>
    ensures { StepAnswer operator.entry state.width state.bits made result }
{
    let holds = is_true(operator.precondition(), state);
    let change = change_of(operator.effect(), state);
    let (Ok(holds), Ok(change)) = (holds, change) else {
        return Err(Fault::run(Refusal::WrongWidth, made, 0));
    };
    check_fit(operator, holds, change.clash(), made)?;
    Ok(between(state, after(state, change)))
}
