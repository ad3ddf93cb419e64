// The questions of a conversation: how it is started, 9 to 16 and 22, whose turn it is, the due part; the warning of a branch.
// Table, state and counts are three arguments and no struct: the C interface lends each of them apart.
#![tactic(auto)]

ghost use Rattle.std.specs.Prelude.{◌≡◌};
ghost use Rattle.conversation.specs.Step.{fresh};
ghost use Rattle.conversation.specs.Due.{seen, turn_answer, first_length};
ghost use Rattle.conversation.specs.Counts.{fresh_counts, question_of, started, starting, counted_turn, counted_due};

use conversation::{Counts, Standing, Started, State};
use table::{Party, Question, Table};

pub mod ask;
mod counts;
pub mod warning;

// A fresh conversation over a table, with the setting z in hundredths. Asks 9, then 21.
#[tactic(auto, using(conversation::proofs::laws::Counts::starts_not, conversation::proofs::laws::Counts::starts_nowhere, conversation::proofs::laws::Counts::starts, conversation::proofs::laws::Counts::setting_most))]
pub fn fresh(t: &Table, setting: u32) -> Started
    ensures { started result ≡ starting t.now setting }
{
    if !table::sound(t) {
        return start(Some(Question::Unsound), 0);
    }
    if !counts::setting_legal(setting) {
        return start(Some(Question::BadSetting), 0);
    }
    start(None, setting as u16)
}

#[tactic(auto, unfolding(conversation::specs::Step::fresh, conversation::specs::Counts::fresh_counts, conversation::specs::Counts::started))]
fn start(refused: Option<Question>, setting: u16) -> Started
    ensures { started result ≡ record { question = question_of refused; state = fresh; counts = fresh_counts setting } }
{
    let mut counts = [0; 161];
    counts[conversation::SETTING] = setting;
    Started {
        refused,
        state: State {
            position: 0,
            standing: Standing::Running,
        },
        counts,
    }
}

// Whose turn it is. Asks 9, 10 and 11.
#[tactic(auto, using(crate::proofs::laws::CountedTurn::turn_refused, crate::proofs::laws::CountedTurn::turn_passed, crate::proofs::laws::CountedTurn::turn_choice))]
pub fn whose_turn(t: &Table, s: State, c: &Counts) -> Result<Party, Question>
    ensures { turn_answer result ≡ counted_turn t.now s c.now }
{
    ask::of_state(t, s, c)?;
    Ok(ask::sender(t[table::SORT + usize::from(s.position)]))
}

// The due message, as a part of the waiting bytes of the side whose turn it is. Empty at that side's start when 13 or 14 would
// refuse or the message is not all there, and at the start of the device's bytes when 9, 10 or 11 would.
#[tactic(auto, using(conversation::proofs::laws::Due::first_taken), unfolding(conversation::specs::Counts::counted_due, conversation::specs::Due::due_at, conversation::specs::Due::turn_answer))]
pub fn due<'a>(t: &Table, s: State, c: &Counts, device: &'a [u8], host: &'a [u8]) -> &'a [u8]
    ensures { seen result ≡ counted_due t.now s c.now device.entry host.entry }
{
    match whose_turn(t, s, c) {
        Ok(Party::Device) => &device[..first_length(device)],
        Ok(Party::Host) => &host[..first_length(host)],
        Err(_) => &device[..0],
    }
}

// How long the first message is; 0, as `first_length` in conversation/specs/Due says, when 13 or 14 would refuse or it is not all there.
// A leaf of `due`, and no call of the library.
pub fn first_length(bytes: &[u8]) -> usize
    ensures { result ≡ first_length bytes.now }
{
    match message::front(bytes) {
        Ok(n) if n <= bytes.len() => n,
        _ => 0,
    }
}
