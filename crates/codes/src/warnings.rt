// The warning of a branch, as codes.
#![tactic(auto, unfolding(conversation::specs::Warning::estimate_of, conversation::specs::Warning::notice_of))]

ghost use Rattle.std.specs.Prelude.{◌≡◌};
ghost use Rattle.conversation.specs.Warning.{estimate_of, notice_of};
ghost use Rattle.codes.specs.Codes.{estimate_code, warning_codes};

use super::steps;
use conversation::warning::Notice;
use table::Question;

// The number of the question that got a no, or 0; whether the branch warns (0 or 1), the side that sends at its choice (0 device, 1
// host), and the estimate in thousandths (65535: none).
#[repr(C)]
#[derive(Clone, Copy)]
pub struct Warning {
    pub question: u32,
    pub warns: u32,
    pub sender: u32,
    pub estimate: u32,
}

impl From<Result<Notice, Question>> for Warning {
    ghost from_gives = { λ notice codes. codes ≡ warning_codes (notice_of notice) };

    fn from(notice: Result<Notice, Question>) -> Warning {
        match notice {
            Ok(notice) => Warning {
                question: 0,
                warns: u32::from(notice.warns),
                sender: u32::from(steps::party_code(notice.sender)),
                estimate: estimate_code(notice.estimate),
            },
            Err(question) => Warning {
                question: u32::from(question),
                warns: 0,
                sender: 0,
                estimate: 65535,
            },
        }
    }
}

fn estimate_code(estimate: Option<u32>) -> u32
    ensures { result ≡ estimate_code (estimate_of estimate) }
{
    estimate.unwrap_or(65535)
}
