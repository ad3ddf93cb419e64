// One side's messages in a batch: its waiting bytes, and the output that they go to. Question 9 is not asked here.
ghost use Rattle.std.specs.Prelude.{◌≡◌, ◌+◌, ◌≤◌, true, MatchOption};
ghost use Rattle.table.specs.View.{sound_of};
ghost use Rattle.conversation.specs.Step.{told, stepping, outcome};
ghost use Rattle.conversation.specs.Due.{awaited, of_side};
ghost use Rattle.conversation.specs.Batch.{used_by, written_by, taking, lane_of};
ghost use Rattle.conversation.specs.inner.Keeping.{Heard, LaneIn, Rising};
ghost use Rattle.monitor.specs.inner.Lanes.{taken_of, PassedOn};
ghost use Rattle.conversation.specs.Counts.{counted};

use super::{copy, judge, straight};
use conversation::batch::Lane;
use conversation::{Counts, State, Stepped, Verdict};
use table::{Party, Question, Table};

// What comes of a side's turn.
#[derive(Clone, Copy)]
pub struct Taken {
    pub answer: Option<Verdict>,
    pub state: State,
    pub lane: Lane,
}

// The first message of what is left, where it goes straight: it is counted, and copied to what is left of the output. In line, so that
// what it gives stays in registers: a message costs half as much again without.
#[inline(always)]
pub fn pass(
    t: &Table,
    s: State,
    c: &mut Counts,
    lane: Lane,
    bytes: &[u8],
    out: &mut [u8],
) -> Option<Taken>
    requires { (sound_of t.now ≡ true) × Rising t.now c.old × LaneIn bytes.now (lane_of lane out.old) }
    ensures { MatchOption result ((c.new ≡ c.old) × (out.new ≡ out.old))
        (λ r. PassedOn t.now s c.old bytes.now (lane_of lane out.old) c.new out.new r) }
{
    let rest = &bytes[lane.used..];
    let first = straight::look_ahead(t, s.position, rest, out.len() - lane.written)?;
    let n = first.length;
    copy::to_front(&rest[..n], &mut out[lane.written..]);
    Some(Taken {
        answer: Some(Verdict::Forwarded),
        state: super::follow(t, first.branch, s, c),
        lane: after(lane, Verdict::Forwarded, n),
    })
}

// The first message of what is left, whatever becomes of it: the step is given what is left of the output.
pub fn take(
    t: &Table,
    s: State,
    c: &mut Counts,
    side: Party,
    lane: Lane,
    bytes: &[u8],
    out: &mut [u8],
) -> Taken
    requires { (awaited t.now s ≡ of_side side) × Rising t.now c.old × LaneIn bytes.now (lane_of lane out.old) }
    ensures { taken_of result c.new out.new
        ≡ taking t.now s c.old side bytes.now (lane_of lane out.old) }
{
    let rest = &bytes[lane.used..];
    let n = questions::first_length(rest);
    if n == 0 {
        return Taken {
            answer: None,
            state: s,
            lane,
        };
    }
    let x = heard(t, s, c, side, &rest[..n], &mut out[lane.written..]);
    Taken {
        answer: Some(x.verdict),
        state: x.state,
        lane: after(lane, x.verdict, n),
    }
}

// After a message of n bytes: those of a forwarded or blamed one are used, those of a forwarded one written.
#[tactic(auto, unfolding(conversation::specs::Step::told, conversation::specs::Batch::used_by, conversation::specs::Batch::written_by))]
fn after(lane: Lane, v: Verdict, n: usize) -> Lane
    requires { (lane.used + used_by (told v) n ≤ usize.MAX) × (lane.written + written_by (told v) n ≤ usize.MAX) }
    ensures { result ≡ record { used = lane.used + used_by (told v) n; written = lane.written + written_by (told v) n } }
{
    match v {
        Verdict::Refused(_) => lane,
        Verdict::Blamed(_, _) => Lane {
            used: lane.used + n,
            ..lane
        },
        Verdict::Forwarded => Lane {
            used: lane.used + n,
            written: lane.written + n,
        },
    }
}

// A step on a due message: only 22 and 16 are left to ask.
fn heard(
    t: &Table,
    s: State,
    c: &mut Counts,
    side: Party,
    message: &[u8],
    out: &mut [u8],
) -> Stepped
    requires { Heard t.now s side message.now × Rising t.now c.old }
    ensures { (outcome result out.new ≡ stepping t.now s side message.now out.old)
        × (c.new ≡ counted t.now s message.now (told result.verdict) c.old) }
{
    if !message::legal_texts(message) {
        return super::refused(s, Question::NotUtf8);
    }
    if out.len() < message.len() {
        return super::refused(s, Question::OutputTooShort);
    }
    let judged = judge::judge(t, s.position, message);
    super::settle(t, judged, s, c, side, message, out)
}
