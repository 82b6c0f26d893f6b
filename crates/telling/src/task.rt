// A task told in words: its variables, its start, its goal and its operators.
use crate::text::{TrueVariables, effect_text, formula_text};
use std::io;
use tasks::task::Task;

// The variables, the start, the goal and the operators.
pub fn print_task(rt: &(impl Print + AllocGlobal), task: &Task<'_>) -> io::Result<()> {
    let width = task.width();
    println!(rt; "variables: {width}, v0 to v{}", width.saturating_sub(1))?;
    println!(rt; "true at the start: {}", TrueVariables(task.initial()))?;
    println!(rt; "goal: {}", formula_text(rt.alloc(), task.goal())?)?;
    println!(rt; "operators: {}", task.operators())?;
    for number in 0..task.operators() {
        if let Ok(operator) = task.operator(number) {
            let precondition = formula_text(rt.alloc(), operator.precondition())?;
            let effect = effect_text(rt.alloc(), operator.effect())?;
            println!(rt; "  {number}: needs {precondition}; does {effect}")?;
        }
    }
    Ok(())
}
