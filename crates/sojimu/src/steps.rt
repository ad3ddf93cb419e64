// The monitor: one step over a lent state, whose turn it is, and the due part.
#![tactic(auto, using(crate::proofs::laws::Announced::first_few), unfolding(conversation::specs::Step::told, conversation::specs::Due::turn_answer, codes::specs::Calls::due_codes, crate::specs::inner::Parts::unspoken))]

ghost use Rattle.std.specs.Prelude.{◌≡◌};
ghost use Rattle.conversation.specs.Step.{told};
ghost use Rattle.conversation.specs.Due.{first_length};
ghost use Rattle.conversation.specs.Counts.{starting, counted_turn};
ghost use Rattle.codes.specs.Codes.{party_code, turn_codes, standing_code, state_in, started_codes};
ghost use Rattle.codes.specs.Calls.{step_codes, due_codes};
ghost use Rattle.sojimu.specs.inner.Parts.{unspoken};

use codes::steps::{Due, Started, Turn, Verdict};
use conversation::Counts;
use table::{Party, Question, Table};

// A conversation over a table, with the setting in hundredths. Asks 9, then 21.
#[unsafe(no_mangle)]
pub extern "C" fn sojimu_fresh(table: &Table, setting: u32) -> Started
    ensures { result ≡ started_codes (starting table.now setting) }
{
    Started::from(questions::fresh(table, setting))
}

// The state that two lent bytes stand for.
pub fn state_in(state: &[u8; 2]) -> conversation::State
    ensures { result ≡ state_in state.now }
{
    codes::steps::state_of(state[0], state[1])
}

// One step. The state's two bytes, position and standing, and its counts are lent and advanced.
#[unsafe(no_mangle)]
pub extern "C" fn sojimu_raw_step(
    table: &Table,
    state: &mut [u8; 2],
    counts: &mut Counts,
    side: u32,
    message: &[u8],
    out: &mut [u8],
) -> Verdict
    ensures { (result, state.new, counts.new, out.new)
        ≡ step_codes table.now state.old counts.old side message.now out.old }
{
    let s = state_in(state);
    let Some(speaker) = codes::steps::side_of(side) else {
        return Verdict::from(unspoken(table, s, counts));
    };
    let r = monitor::step(table, s, counts, speaker, message, out);
    codes::steps::keep(state, r);
    Verdict::from(r.verdict)
}

// The refusal of what no side says: by 9, 10 or 11, else by 12. It is never judged, and nobody is blamed for it.
fn unspoken(table: &Table, s: conversation::State, counts: &Counts) -> conversation::Verdict
    ensures { told result ≡ unspoken (counted_turn table.now s counts.now) }
{
    match questions::whose_turn(table, s, counts) {
        Err(question) => conversation::Verdict::Refused(question),
        Ok(_) => conversation::Verdict::Refused(Question::OutOfTurn),
    }
}

// Whose turn it is. Asks 9, 10 and 11.
#[unsafe(no_mangle)]
pub extern "C" fn sojimu_raw_turn(table: &Table, state: &[u8; 2], counts: &Counts) -> Turn
    ensures { result ≡ turn_codes (counted_turn table.now (state_in state.now) counts.now) }
{
    Turn::from(questions::whose_turn(table, state_in(state), counts))
}

// The due part, as a side and a length.
#[unsafe(no_mangle)]
pub extern "C" fn sojimu_raw_due(
    table: &Table,
    state: &[u8; 2],
    counts: &Counts,
    device: &[u8],
    host: &[u8],
) -> Due
    ensures { result ≡ due_codes (counted_turn table.now (state_in state.now) counts.now)
        device.now host.now }
{
    match questions::whose_turn(table, state_in(state), counts) {
        Err(_) => Due { side: 0, length: 0 },
        Ok(Party::Device) => first_of(Party::Device, device),
        Ok(Party::Host) => first_of(Party::Host, host),
    }
}

// A side's first message.
fn first_of(side: Party, bytes: &[u8]) -> Due
    ensures { result ≡ record { side = party_code side; length = first_length bytes.now } }
{
    Due {
        side: u32::from(codes::steps::party_code(side)),
        length: questions::first_length(bytes) as u32,
    }
}
