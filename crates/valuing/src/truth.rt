// The truth of a formula in a state.
ghost use Rattle.std.specs.Prelude.{◌≡◌, if◌then◌else◌, Ok, Err, nat_eq};
ghost use Rattle.words.specs.Refusals.{bank_fault};
ghost use Rattle.planning.specs.Truth.{truth};
ghost use Rattle.reading.specs.Parts.{formula_of};

use crate::single::is_one;
use crate::work::formula_value;
use tasks::part::FormulaPart;
use tasks::state::State;
use words::fault::{Fault, Refusal};

// Whether the formula is true in the state; refused where it is one over another number of variables.
pub fn is_true(formula: FormulaPart<'_>, state: State) -> Result<bool, Fault>
    ensures { result ≡ (if nat_eq formula.entry.width state.width then Ok (truth state.bits (formula_of formula.entry.words.now)) else Err (bank_fault Refusal.WrongWidth)) }
{
    let mut valuer = state;
    let value = formula_value(&mut valuer, formula)?;
    Ok(is_one(value))
}
