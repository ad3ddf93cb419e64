// The questions of a step, in document 01's order. The table is lent: nothing is copied.
ghost use Rattle.std.specs.Prelude.{◌≡◌, ◌&&◌, cond};
ghost use Rattle.std.proofs.Math.Option.{some};
ghost use Rattle.table.specs.Lists.{first_no};
ghost use Rattle.table.specs.Question.{refused_by};
ghost use Rattle.table.specs.Table.{speaker, is_party};
ghost use Rattle.table.specs.View.{sort_of, sound_at};
ghost use Rattle.conversation.specs.Step.{of_state, may_speak, of_message};
ghost use Rattle.conversation.specs.Batch.{batch_questions};
ghost use Rattle.conversation.specs.Counts.{counts_sound};

use super::counts;
use conversation::{Counts, Standing, State};
use table::{Party, Question, Table};

// 9 of the table, the position and the counts.
#[tactic(auto, using(conversation::proofs::laws::Batch::table_sound))]
pub fn sound(t: &Table, s: State, c: &Counts) -> Result<(), Question>
    ensures { refused_by result ≡ cond (sound_at t.now s.position && counts_sound t.now c.now) 0 9 }
{
    if table::sound_at(t, u32::from(s.position)) && counts::sound(t, c) {
        Ok(())
    } else {
        Err(Question::Unsound)
    }
}

// 9, on the counts, too, and 10: the first that gets a no.
#[tactic(auto, unfolding(conversation::specs::Batch::batch_questions, table::specs::Lists::first_no, conversation::specs::Step::is_running))]
pub fn of_batch(t: &Table, s: State, c: &Counts) -> Result<(), Question>
    ensures { refused_by result ≡ first_no (batch_questions t.now s c.now) }
{
    sound(t, s, c)?;
    if s.standing != Standing::Running {
        return Err(Question::NotRunning);
    }
    Ok(())
}

// 9, 10 and 11: the first that gets a no.
#[tactic(auto, using(conversation::proofs::laws::Step::entered, conversation::proofs::laws::Step::not_entered, conversation::proofs::laws::Step::nine_passed, conversation::proofs::laws::Step::at_end, conversation::proofs::laws::Step::at_choice, table::proofs::laws::View::sound_facts, table::proofs::laws::Question::number_no_zero))]
pub fn of_state(t: &Table, s: State, c: &Counts) -> Result<(), Question>
    ensures { refused_by result ≡ cond (counts_sound t.now c.now) (first_no (of_state t.now s)) 9 }
{
    of_batch(t, s, c)?;
    if t[table::SORT + usize::from(s.position)] == 0 {
        return Err(Question::AtEnd);
    }
    Ok(())
}

// 12 to 15, 22 and 16, under this edition and at a state of this sort: the first that gets a no.
#[tactic(auto, using(conversation::proofs::laws::Step::not_its_turn, conversation::proofs::laws::Step::not_formed, conversation::proofs::laws::Step::no_room, conversation::proofs::laws::Step::all_well, table::proofs::laws::Question::number_no_zero))]
pub fn of_message(
    edition: u32,
    sort: u32,
    side: Party,
    message: &[u8],
    room: usize,
) -> Result<(), Question>
    ensures { refused_by result ≡ first_no (of_message edition (sort_of sort) side message.now room) }
{
    if !may_speak(edition, sort, side) {
        return Err(Question::OutOfTurn);
    }
    message::refusal(message)?;
    if room < message.len() {
        return Err(Question::OutputTooShort);
    }
    Ok(())
}

// Question 12, which edition 2 does not ask.
fn may_speak(edition: u32, sort: u32, side: Party) -> bool
    ensures { result ≡ may_speak edition (sort_of sort) side }
{
    edition == 2 || has_turn(side, sort)
}

#[tactic(auto, using(crate::proofs::laws::Sender::device_has_turn, crate::proofs::laws::Sender::host_has_turn))]
pub fn has_turn(side: Party, sort: u32) -> bool
    ensures { result ≡ is_party side (speaker (sort_of sort)) }
{
    match side {
        Party::Device => sort == 1,
        Party::Host => 1 < sort,
    }
}

// Who sends at a choice of this sort.
#[tactic(auto, using(crate::proofs::laws::Sender::device_sends, crate::proofs::laws::Sender::host_sends))]
pub(crate) fn sender(sort: u32) -> Party
    requires { sort ≡ 0 → ⊥ }
    ensures { some result ≡ speaker (sort_of sort) }
{
    if sort == 1 {
        Party::Device
    } else {
        Party::Host
    }
}
