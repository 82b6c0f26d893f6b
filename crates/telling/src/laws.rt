// The laws of what an account tells: each function stands for the law that its contract says.
ghost use Rattle.std.specs.Prelude.{ℕ};
ghost use Rattle.words.specs.declared.fault.Fault.{Fault};
ghost use Rattle.planning.specs.Tree.{TaskTree};
ghost use Rattle.planning.specs.Limits.{TaskWithin};
ghost use Rattle.telling.specs.Locations.{LocationsTold};
ghost use Rattle.telling.specs.Reasons.{ReasonsTold};

// Each word of a part of a task is told to stand in that part.
pub fn locations_told()
    ensures { (t : TaskTree) → TaskWithin t → LocationsTold t }
{}

// Where a step is refused since it would set and clear a variable together, that variable is told.
pub fn reasons_told()
    ensures { (t : TaskTree) (width : ℕ) (s : ℕ) (made : ℕ) (k : ℕ) (f : Fault) → ReasonsTold t width s made k f }
{}
