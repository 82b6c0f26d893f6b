// The parts of a task, and the operators made of two parts.
ghost use Rattle.std.specs.Prelude.{◌≡◌, ◌≤◌, ℕ, Bool, List, true, length, ⊤};
ghost use Rattle.planning.specs.Render.{formula_words, effect_words};
ghost use Rattle.planning.specs.Tree.{TRUE, NIL};
ghost use Rattle.reading.specs.Parts.{is_formula, is_effect};

use std::alloc::AllocError;
use std::marker::PhantomData;
use words::kind::Kind;

// What a part holds, told by a type: one formula, or one effect.
pub trait Content {
    // Which words, over so many variables, are those of a part that holds it.
    ghost formed: { ℕ → List ℕ → Bool };
}

#[derive(Clone, Copy, PartialEq, Eq, Debug)]
pub struct Formula;

impl Content for Formula {
    ghost formed = { is_formula };
}

#[derive(Clone, Copy, PartialEq, Eq, Debug)]
pub struct Effect;

impl Content for Effect {
    ghost formed = { is_effect };
}

// The words of a part over `width` variables; `place` is that of the first word.
pub struct Part<'a, C: Content> {
    pub(crate) words: &'a [u32],
    pub(crate) place: u32,
    pub(crate) width: u32,
    pub(crate) holds: PhantomData<C>,
    ghost placed: { place ≤ 16384 },
    ghost some: { 1 ≤ width },
    ghost narrow: { width ≤ 64 },
    ghost filled: { 1 ≤ length words.now },
    ghost short: { length words.now ≤ 4096 },
    ghost formed: { C.formed width words.now ≡ true },
}

// A derive is refused here, over ghost fields in a generic struct.
impl<'a, C: Content> Clone for Part<'a, C> {
    ghost is_clone = { λ part copy. copy ≡ part };

    ghost is_infallible = { λ _. ⊤ };

    fn clone(&self) -> Result<Part<'a, C>, AllocError> {
        Ok(*self)
    }
}

impl<'a, C: Content> Copy for Part<'a, C> {}

// A part that holds a formula: the goal, or a precondition.
pub type FormulaPart<'a> = Part<'a, Formula>;

// A part that holds an effect.
pub type EffectPart<'a> = Part<'a, Effect>;

impl<'a, C: Content> Part<'a, C> {
    pub fn words(&self) -> &'a [u32]
        ensures { result.now ≡ self.now.words.now }
    {
        self.words
    }

    pub fn place(&self) -> u32
        ensures { result ≡ self.now.place }
    {
        self.place
    }

    pub fn width(&self) -> u32
        ensures { result ≡ self.now.width }
    {
        self.width
    }
}

// An operator: its precondition and its effect.
#[derive(Clone, Copy)]
pub struct Operator<'a> {
    pub(crate) precondition: FormulaPart<'a>,
    pub(crate) effect: EffectPart<'a>,
}

// TRUE, and NIL.
const BUILT_IN: [u32; 2] = [(Kind::True as u32) << 28, (Kind::Nil as u32) << 28];

impl<'a> Operator<'a> {
    // An operator of one variable that always fits and does nothing; it stands in no task.
    pub fn built_in() -> Operator<'a>
        ensures precondition { (result.precondition.words.now ≡ formula_words TRUE) × (result.precondition.place ≡ 0) × (result.precondition.width ≡ 1) }
        ensures effect { (result.effect.words.now ≡ effect_words NIL) × (result.effect.place ≡ 0) × (result.effect.width ≡ 1) }
    {
        Operator {
            precondition: Part {
                words: &BUILT_IN[0..1],
                place: 0,
                width: 1,
                holds: PhantomData,
            },
            effect: Part {
                words: &BUILT_IN[1..2],
                place: 0,
                width: 1,
                holds: PhantomData,
            },
        }
    }

    pub fn precondition(&self) -> FormulaPart<'a>
        ensures { result ≡ self.now.precondition }
    {
        self.precondition
    }

    pub fn effect(&self) -> EffectPart<'a>
        ensures { result ≡ self.now.effect }
    {
        self.effect
    }
}
