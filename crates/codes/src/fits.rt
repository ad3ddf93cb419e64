// The fit check's answer, as codes.
#![tactic(auto, unfolding(message::specs::Make::high_of, machine::specs::Answer::answer_of))]

ghost use Rattle.std.specs.Prelude.{◌≡◌};
ghost use Rattle.message.specs.Make.{high_of};
ghost use Rattle.machine.specs.Answer.{answer_of};
ghost use Rattle.codes.specs.Codes.{high_code, fit_codes};

use machine::Fitting;
use table::Question;

// Outcome: 0 fits (count: pairs met), 1 fails (count: moves shown; high: the field that is high in the last, or 255), 2 refused
// (question).
#[repr(C)]
#[derive(Clone, Copy)]
pub struct Fit {
    pub outcome: u32,
    pub question: u32,
    pub count: u32,
    pub high: u32,
}

impl From<Result<Fitting, Question>> for Fit {
    ghost from_gives = { λ answer codes. codes ≡ fit_codes (answer_of answer) };

    fn from(answer: Result<Fitting, Question>) -> Fit {
        match answer {
            Ok(Fitting::Fits { pairs }) => Fit {
                outcome: 0,
                question: 0,
                count: u32::from(pairs),
                high: 255,
            },
            Ok(Fitting::Fails { moves, high }) => Fit {
                outcome: 1,
                question: 0,
                count: u32::from(moves),
                high: high_code(high),
            },
            Err(question) => Fit {
                outcome: 2,
                question: u32::from(question),
                count: 0,
                high: 255,
            },
        }
    }
}

fn high_code(field: Option<u8>) -> u32
    ensures { result ≡ high_code (high_of field) }
{
    field.map_or(255, u32::from)
}
