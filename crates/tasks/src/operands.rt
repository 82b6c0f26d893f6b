// The operands of a word: the values that wait are taken off, the newest first, if they are of the sorts that the word takes.
ghost use Rattle.std.specs.Prelude.{◌≡◌, [], ◌∷◌};
ghost use Rattle.reading.specs.Rules.{alone};
ghost use Rattle.reading.specs.Senses.{takes};
ghost use Rattle.tasks.specs.Progress.{OperandsTaken};

use reading::section::Sort;
use waiting::Waiting;
use words::fault::Refusal;
use words::kind::Kind;

// Whether one more value, of that sort, would wait alone and be the wanted one.
pub fn is_alone_with(waiting: &Waiting<Sort>, sort: Sort, wanted: Sort) -> bool
    ensures { result ≡ alone wanted (sort ∷ waiting.now) }
{
    waiting.is_empty() && wanted == sort
}

// Takes the newest value off; refused if it is not of that sort, or none waits.
fn take_operand(waiting: &mut Waiting<Sort>, sort: Sort) -> Result<(), Refusal>
    ensures { OperandsTaken (sort ∷ []) waiting.old waiting.new result }
{
    match waiting.pop() {
        Some(newest) if newest == sort => Ok(()),
        _ => Err(Refusal::WrongOperand),
    }
}

// Takes two values off.
fn take_two(waiting: &mut Waiting<Sort>, newest: Sort, second: Sort) -> Result<(), Refusal>
    ensures { OperandsTaken (newest ∷ second ∷ []) waiting.old waiting.new result }
{
    take_operand(waiting, newest)?;
    take_operand(waiting, second)
}

// Takes the operands of a word off; refused if one is missing or of the wrong sort.
pub fn take_operands(waiting: &mut Waiting<Sort>, kind: Kind) -> Result<(), Refusal>
    ensures { OperandsTaken (takes kind) waiting.old waiting.new result }
{
    match kind {
        Kind::Not => take_operand(waiting, Sort::Formula),
        Kind::And | Kind::Or => take_two(waiting, Sort::Formula, Sort::Formula),
        Kind::Both => take_two(waiting, Sort::Effect, Sort::Effect),
        Kind::When => take_two(waiting, Sort::Effect, Sort::Formula),
        _ => Ok(()),
    }
}
