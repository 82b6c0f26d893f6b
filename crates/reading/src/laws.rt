// What is promised of reading; the statements are in specs/Laws.antt.
ghost use Rattle.std.specs.Prelude.{ℕ, List};
ghost use Rattle.words.specs.declared.kind.Kind.{Kind};
ghost use Rattle.reading.specs.Turns.{Turn};
ghost use Rattle.reading.specs.Laws.{AcceptedWhenRendered, FirstFaultDecides, PartsAreRead, PartsRenderTrees, SmallerNumberDecides};

// Words are accepted exactly when they render a task within the limits; then they render that one task and no other.
pub fn accepted_when_rendered()
    ensures { (ws : List ℕ) → AcceptedWhenRendered ws }
{}

// Of at most 16,384 words the first faulty one decides, and none is refused where no word is faulty; more words are too long.
pub fn first_fault_decides()
    ensures { (ws : List ℕ) → FirstFaultDecides ws }
{}

// At one word, the refusal is of a rule that the word breaks, and of the smallest number among those.
pub fn smaller_number_decides()
    ensures { (turn : Turn) (rest : ℕ) (j : Kind) (l : ℕ) → SmallerNumberDecides turn rest j l }
{}

// The words of a part have no fault exactly when they are those of a formula, or of an effect, within the limits.
pub fn parts_render_trees()
    ensures { (n : ℕ) (ws : List ℕ) → PartsRenderTrees n ws }
{}

// The words of such a part are those of the one formula, or the one effect, that they are read into.
pub fn parts_are_read()
    ensures { (n : ℕ) (ws : List ℕ) → PartsAreRead n ws }
{}
