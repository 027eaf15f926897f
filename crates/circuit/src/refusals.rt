// Why a call gives no answer.
ghost use Rattle.std.specs.Prelude.{◌≡◌, Some};
ghost use Rattle.circuit.specs.Refusals.{number_of, refusal_text};
ghost use Rattle.circuit.specs.declared.refusals.Failure.TheVariants.{Memory, Refused};

use std::alloc::AllocError;
use std::fmt;

// What is wrong with an input.
#[derive(Clone, Copy, PartialEq, Eq, Debug)]
pub enum Refusal {
    // a text that is none of its kind: an unknown kind, a cut, bytes left over, a character that means nothing
    Malformed = 1,
    // a count out of its range
    Count = 2,
    // a wire that is not made yet
    NotMade = 3,
    // a gate's truth table of more than four bits
    Table = 4,
    // other than a value for each input
    Values = 7,
}

impl Refusal {
    // The number that a refusal is told by.
    pub fn number(self) -> u8
        ensures { result ≡ number_of self }
    {
        self as u8
    }
}

impl fmt::Display for Refusal {
    ghost output = { λ e. Some (refusal_text e) };

    fn fmt<W: fmt::Write>(&self, f: &mut fmt::Formatter<W>) -> fmt::Result {
        write!(f, "refused: {}", self.number())
    }
}

// No answer: the input is refused, or memory ran out.
#[derive(Clone, Copy, PartialEq, Eq, Debug)]
pub enum Failure {
    Refused(Refusal),
    Memory,
}

// These two are written out, as what is derived says nothing of the case that it makes.
impl From<Refusal> for Failure {
    ghost from_gives = { λ e r. r ≡ Refused e };

    fn from(e: Refusal) -> Failure {
        Failure::Refused(e)
    }
}

impl From<AllocError> for Failure {
    ghost from_gives = { λ _ r. r ≡ Memory };

    fn from(_e: AllocError) -> Failure {
        Failure::Memory
    }
}
