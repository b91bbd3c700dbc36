// The answers: 01's and 02's number and values for each, and what a refusal leaves.
ghost use Rattle.std.specs.Prelude.{◌≡◌};
ghost use Rattle.kernel.specs.Definition.Answers.{number_of, a_of, b_of, gives};
ghost use Rattle.kernel.specs.Within.{answer_for};
ghost use Rattle.kernel.specs.declared.Answer.TheVariants.{Done};

use super::{Answer, Outcome, Tables};
use modules::Refusal;

impl Answer {
    pub fn number(self) -> u8
        ensures { result ≡ number_of self }
    {
        match self {
            Answer::Done(_, _) => 0,
            Answer::BadTables => 1,
            Answer::BadCall => 2,
            Answer::NoChannel => 3,
            Answer::Exists => 4,
            Answer::BadName => 5,
            Answer::NoDevice => 6,
            Answer::Driver(_) => 7,
            Answer::Full => 8,
            Answer::NoRoom => 9,
            Answer::NoSegment => 10,
            Answer::NotOwner => 11,
            Answer::BadBoundary => 12,
            Answer::BadRange => 13,
            Answer::Guarded => 14,
            Answer::BadFlags => 15,
            Answer::BadStart => 16,
            Answer::Shared(_, _) => 17,
            Answer::BadModule => 19,
            Answer::BadPage => 20,
        }
    }

    pub fn a(self) -> u8
        ensures { result ≡ a_of self }
    {
        match self {
            Answer::Done(a, _) | Answer::Shared(a, _) => a,
            Answer::Driver(status) => status,
            _ => 0,
        }
    }

    pub fn b(self) -> u16
        ensures { result ≡ b_of self }
    {
        match self {
            Answer::Done(_, b) | Answer::Shared(_, b) => b,
            _ => 0,
        }
    }
}

// What a module is refused for.
impl From<Refusal> for Answer {
    ghost from_gives = { λ refusal answer. answer ≡ answer_for refusal };

    fn from(refusal: Refusal) -> Answer {
        match refusal {
            Refusal::Module => Answer::BadModule,
            Refusal::Page => Answer::BadPage,
            Refusal::Range => Answer::BadRange,
            Refusal::Guard => Answer::Guarded,
        }
    }
}

impl Tables {
    // A refusal leaves the tables, and nothing moves.
    pub fn refuse(self, answer: Answer) -> Outcome
        ensures { result ≡ gives answer self }
    {
        Outcome {
            answer,
            tables: self,
            moved: 0,
        }
    }

    // These tables after a call that is done and moves nothing, with its values a and b.
    pub(crate) fn done(self, a: u8, b: u16) -> Outcome
        ensures { result ≡ gives (Done a b) self }
    {
        Outcome {
            answer: Answer::Done(a, b),
            tables: self,
            moved: 0,
        }
    }
}
