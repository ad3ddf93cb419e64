// The state, whose turn it is, the due part and the verdict of a step, as codes.
#![tactic(auto, unfolding(conversation::specs::Step::told, conversation::specs::Step::reason, conversation::specs::Step::outside, conversation::specs::Due::turn_answer, conversation::specs::Counts::started, conversation::specs::Counts::question_of, crate::specs::Calls::bytes_after))]

ghost use Rattle.std.specs.Prelude.{◌≡◌, MatchOption};
ghost use Rattle.std.proofs.Math.Option.{some, none};
ghost use Rattle.conversation.specs.declared.Verdict.TheVariants.{Blamed};
ghost use Rattle.conversation.specs.Step.{told};
ghost use Rattle.conversation.specs.Due.{turn_answer};
ghost use Rattle.conversation.specs.Counts.{started};
ghost use Rattle.codes.specs.Codes.{code_side, party_code, turn_codes, standing_code, standing_of, state_of, state_bytes, verdict_codes, started_codes};
ghost use Rattle.codes.specs.Calls.{bytes_after};

use conversation::{Counts, Reason, Standing, Stepped};
use table::{Party, Question};

// A conversation's state. Standing: 0 running, 1 device blamed, 2 host blamed. Counts: the setting, n of each state, k of each branch.
#[repr(C)]
#[derive(Drop)]
pub struct State {
    pub position: u8,
    pub standing: u8,
    pub counts: Counts,
}

// What a conversation is started with: the number of the question that got a no, or 0, and the state.
#[repr(C)]
#[derive(Drop)]
pub struct Started {
    pub question: u32,
    pub state: State,
}

// Outcome: 0 forwarded, 1 refused (question), 2 blamed (party: 0 device, 1 host; reason; field with reason 3).
#[repr(C)]
#[derive(Clone, Copy)]
pub struct Verdict {
    pub outcome: u8,
    pub question: u8,
    pub party: u8,
    pub reason: u8,
    pub field: u8,
}

// Whose turn it is: the number of the question that got a no, or 0, and the side (0 device, 1 host).
#[repr(C)]
#[derive(Clone, Copy)]
pub struct Turn {
    pub question: u32,
    pub side: u32,
}

// The side whose bytes the due part is cut from (0 device, 1 host), and how long it is.
#[repr(C)]
#[derive(Clone, Copy)]
pub struct Due {
    pub side: u32,
    pub length: u32,
}

// The side with a code, if there is one. Codes are this crate's, so what they stand for gets no `From` elsewhere.
pub fn side_of(code: u32) -> Option<Party>
    ensures { MatchOption result (code_side code ≡ none) (λ side. code_side code ≡ some side) }
{
    match code {
        0 => Some(Party::Device),
        1 => Some(Party::Host),
        _ => None,
    }
}

pub fn party_code(party: Party) -> u8
    ensures { result ≡ party_code party }
{
    party as u8
}

// A refusal leaves the two bytes as they were.
pub fn keep(state: &mut [u8; 2], r: Stepped)
    ensures { state.new ≡ bytes_after (told r.verdict) r.state state.old }
{
    if !matches!(r.verdict, conversation::Verdict::Refused(_)) {
        put(state, r.state);
    }
}

pub fn put(state: &mut [u8; 2], s: conversation::State)
    ensures { state.new ≡ state_bytes s }
{
    *state = [s.position, standing_code(s.standing)];
}

pub fn state_of(position: u8, standing: u8) -> conversation::State
    ensures { result ≡ state_of position standing }
{
    conversation::State {
        position,
        standing: standing_of(standing),
    }
}

pub fn standing_of(code: u8) -> Standing
    ensures { result ≡ standing_of code }
{
    match code {
        0 => Standing::Running,
        1 => Standing::DeviceBlamed,
        _ => Standing::HostBlamed,
    }
}

pub fn standing_code(standing: Standing) -> u8
    ensures { result ≡ standing_code standing }
{
    standing as u8
}

impl From<conversation::Started> for Started {
    ghost from_gives = { λ begun codes. codes ≡ started_codes (started begun) };

    fn from(begun: conversation::Started) -> Started {
        let conversation::Started {
            refused,
            state,
            counts,
        } = begun;
        let state = State {
            position: state.position,
            standing: standing_code(state.standing),
            counts,
        };
        Started {
            question: refused.map_or(0, u32::from),
            state,
        }
    }
}

impl From<Result<Party, Question>> for Turn {
    ghost from_gives = { λ turn codes. codes ≡ turn_codes (turn_answer turn) };

    fn from(turn: Result<Party, Question>) -> Turn {
        match turn {
            Ok(side) => Turn {
                question: 0,
                side: u32::from(party_code(side)),
            },
            Err(question) => Turn {
                question: u32::from(question),
                side: 0,
            },
        }
    }
}

impl From<conversation::Verdict> for Verdict {
    ghost from_gives = { λ verdict codes. codes ≡ verdict_codes (told verdict) };

    fn from(verdict: conversation::Verdict) -> Verdict {
        match verdict {
            conversation::Verdict::Forwarded => Verdict {
                outcome: 0,
                question: 0,
                party: 0,
                reason: 0,
                field: 0,
            },
            conversation::Verdict::Refused(question) => Verdict {
                outcome: 1,
                question: u8::from(question),
                party: 0,
                reason: 0,
                field: 0,
            },
            conversation::Verdict::Blamed(party, reason) => blame_codes(party, reason),
        }
    }
}

fn blame_codes(party: Party, reason: Reason) -> Verdict
    ensures { result ≡ verdict_codes (told (Blamed party reason)) }
{
    let (reason, field) = match reason {
        Reason::NoLabel => (1, 0),
        Reason::OtherKinds => (2, 0),
        Reason::OutOfRange(field) => (3, field),
        Reason::Early => (4, 0),
    };
    Verdict {
        outcome: 2,
        question: 0,
        party: party_code(party),
        reason,
        field,
    }
}
