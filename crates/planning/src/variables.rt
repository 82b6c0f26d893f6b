// Sets of variables as numbers: bit v stands for variable v.
ghost use Rattle.std.specs.Prelude.{◌≡◌, ◌-◌, ◌^◌, ◌<◌, ◌≤◌, MatchOption, bit_and, bit_or, bit_xor};
ghost use Rattle.std.specs.Int.Count.{count_trailing_zeros};
ghost use Rattle.planning.specs.Changes.{change_count, Smallest};
ghost use Rattle.planning.specs.Steps.{masked};

// The variables that have another value in the new state than in the old one.
fn difference(old: u64, new: u64) -> u64
    ensures { result ≡ bit_xor old new }
{
    old ^ new
}

// How many variables have another value in the new state than in the old one.
pub fn changed(old: u64, new: u64) -> u32
    ensures count { result ≡ change_count 64 old new }
    ensures bound { result ≤ 64 }
{
    difference(old, new).count_ones()
}

// The place of the lowest 1 of a number, 64 where there is none.
fn lowest(set: u64) -> u32
    ensures { result ≡ count_trailing_zeros 64 set }
{
    set.trailing_zeros()
}

// The smallest variable of a set; none where the set is empty.
pub fn smallest(set: u64) -> Option<u32>
    ensures { MatchOption result (set ≡ 0) (λ v. (v < 64) × Smallest set v) }
{
    if set == 0 { None } else { Some(lowest(set)) }
}

// The variables of one set, and those of a state that are not in another set.
fn joined(state: u64, made_true: u64, made_false: u64) -> u64
    ensures { result ≡ bit_or made_true (bit_and state (2 ^ 64 - 1 - made_false)) }
{
    made_true | (state & !made_false)
}

// The state with the variables of one set made true and those of another made false; one in both is made true.
pub fn with_changes(state: u64, made_true: u64, made_false: u64) -> u64
    ensures { result ≡ masked 64 state made_true made_false }
{
    joined(state, made_true, made_false)
}
