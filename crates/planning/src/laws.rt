// The laws of truth, steps and regression. Each function does nothing: its contract is the law.
ghost use Rattle.planning.specs.Laws.{LiteralInChangeSet, ConditionWords, FitsDecided, ValueAfterStep, RegressionIsExact, SequencesLead, SequencesRegress, MasksTell, ChangeCountIsOnes, TrailingZerosSmallest};

// A literal is in the change set of an effect exactly if its condition is true.
pub fn literal_in_change_set()
    ensures { LiteralInChangeSet }
{}

// The words of a condition are the effect's words, each changed by itself.
pub fn condition_words()
    ensures { ConditionWords }
{}

// When an operator fits: by its change set, by conditions, and by a test.
pub fn fits_decided()
    ensures { FitsDecided }
{}

// The value of each variable after a step.
pub fn value_after_step()
    ensures { ValueAfterStep }
{}

// A regression is true exactly where the operator fits and leads to the formula.
pub fn regression_is_exact()
    ensures { RegressionIsExact }
{}

// Where sequences of operators lead.
pub fn sequences_lead()
    ensures { SequencesLead }
{}

// Regression through a sequence of operators.
pub fn sequences_regress()
    ensures { SequencesRegress }
{}

// What the masks of set and cleared variables tell of a step.
pub fn masks_tell()
    ensures { MasksTell }
{}

// The change count is the number of ones of old state xor new state.
pub fn change_count_is_ones_of_xor()
    ensures { ChangeCountIsOnes }
{}

// The trailing zeros of a set of variables are its smallest variable.
pub fn trailing_zeros_smallest()
    ensures { TrailingZerosSmallest }
{}
