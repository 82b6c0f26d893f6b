// Valuers: what works out formulas in one world or many.
ghost use Rattle.std.specs.Prelude.{◌≡◌, true, not, ◌&&◌, ◌||◌};
ghost use Rattle.planning.specs.Tree.{bit};
ghost use Rattle.valuing.specs.Answers.{Answers, full_refusal, variable_refusal, operand_refusal, operands_refusal};
ghost use Rattle.valuing.specs.Meaning.{Meaning};

use words::fault::Fault;

// A valuer makes values, 64-bit codes, each of which is true in some of its worlds; every world is in a state.
// Refusals come in the order of an unknown value, a variable outside the width, and no room.
// Each making asks for memory in order and keeps it so. That fact is a part of the meaning and not of a type, since it may fail of a
// valuer whose memory is its caller's.
pub trait Valuer {
    ghost meaning: { Self → Meaning };

    fn width(&self) -> u32
        ensures { result ≡ (meaning self.now).width };

    // How many more values can be made for certain.
    fn room(&self) -> u32
        ensures { result ≡ (meaning self.now).room };

    // TRUE or FALSE.
    fn constant(&mut self, truth: bool) -> Result<u64, Fault>
        requires { (meaning self.old).ordered ≡ true }
        ensures { Answers (meaning self.old) (meaning self.new) (full_refusal (meaning self.old)) (λ _. truth) result };

    fn variable(&mut self, variable: u32) -> Result<u64, Fault>
        requires { (meaning self.old).ordered ≡ true }
        ensures { Answers (meaning self.old) (meaning self.new) (variable_refusal (meaning self.old) variable) (λ w. bit ((meaning self.old).state w) variable) result };

    fn not(&mut self, operand: u64) -> Result<u64, Fault>
        requires { (meaning self.old).ordered ≡ true }
        ensures { Answers (meaning self.old) (meaning self.new) (operand_refusal (meaning self.old) operand) (λ w. not ((meaning self.old).truth operand w)) result };

    fn and(&mut self, first: u64, second: u64) -> Result<u64, Fault>
        requires { (meaning self.old).ordered ≡ true }
        ensures { Answers (meaning self.old) (meaning self.new) (operands_refusal (meaning self.old) first second) (λ w. (meaning self.old).truth first w && (meaning self.old).truth second w) result };

    fn or(&mut self, first: u64, second: u64) -> Result<u64, Fault>
        requires { (meaning self.old).ordered ≡ true }
        ensures { Answers (meaning self.old) (meaning self.new) (operands_refusal (meaning self.old) first second) (λ w. (meaning self.old).truth first w || (meaning self.old).truth second w) result };
}
