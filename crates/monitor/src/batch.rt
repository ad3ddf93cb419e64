// A scan's worth of messages in one call: single steps on the due messages, in turn. Questions 9 and 10 are asked once: the table
// does not change, and what a sound table's branch leads to is one of its states. Messages that are allowed go straight through;
// the first that does not is taken by itself.
ghost use Rattle.std.specs.Prelude.{◌≡◌, List, ℕ};
ghost use Rattle.conversation.specs.Counts.{Counts};
ghost use Rattle.conversation.specs.Batch.{lent, latest, one_turn, batching, last_of, lane_of, batched};
ghost use Rattle.conversation.specs.inner.Keeping.{is_last_forwarded};
ghost use Rattle.monitor.specs.inner.Lanes.{bytes_waiting, On, Led, none_passed, turned_told};
ghost use Rattle.conversation.specs.declared.State.{State};

use super::lane::{self, Taken};
use conversation::batch::{Batched, Lane, Passed};
use conversation::{Counts, State, Verdict};
use questions::ask;
use table::{Party, Table};

// Takes due messages in turn until none is due, a step refuses or a blame falls. The slices stand apart, as the C interface lends them.
pub fn batch(
    t: &Table,
    s: State,
    c: &mut Counts,
    device: &[u8],
    host: &[u8],
    to_device: &mut [u8],
    to_host: &mut [u8],
) -> Batched
    ensures { batched result c.new to_device.new to_host.new
        ≡ batching t.now s c.old
        (lent device.now host.now to_device.old to_host.old) }
{
    if let Err(question) = ask::of_batch(t, s, c) {
        return begun(s, Some(Verdict::Refused(question)));
    }
    let mut b = begun(s, None);
    loop {
        let far = straight_on(t, b, c, device, host, to_device, to_host);
        let x = turn(t, far, c, device, host, to_device, to_host);
        if !is_forwarded(x.answer) {
            return x.batch;
        }
        b = x.batch;
    }
}

// The same over a state that is lent, and advanced.
pub fn advance(
    t: &Table,
    s: &mut State,
    c: &mut Counts,
    device: &[u8],
    host: &[u8],
    to_device: &mut [u8],
    to_host: &mut [u8],
) -> Passed
    ensures { batched (record { state = s.new; passed = result }) c.new to_device.new to_host.new
        ≡ batching t.now s.old c.old
        (lent device.now host.now to_device.old to_host.old) }
{
    let r = batch(t, *s, c, device, host, to_device, to_host);
    *s = r.state;
    r.passed
}

const UNUSED: Lane = Lane {
    used: 0,
    written: 0,
};

// Nothing used, nothing written.
fn begun(s: State, last: Option<Verdict>) -> Batched
    ensures { result ≡ none_passed s last }
{
    Batched {
        state: s,
        passed: Passed {
            device: UNUSED,
            host: UNUSED,
            last,
        },
    }
}

// As far as messages of either side go straight. Tried: too slow with `turn` in the same loop, since its answer comes by memory. Either
// side has its arm: the outputs are lent apart, and a `&mut` that is chosen from two is no plainer.
fn straight_on(
    t: &Table,
    from: Batched,
    c: &mut Counts,
    device: &[u8],
    host: &[u8],
    to_device: &mut [u8],
    to_host: &mut [u8],
) -> Batched
    requires { On t.now (bytes_waiting device.now host.now) (batched from c.old to_device.old to_host.old) }
    ensures { Led t.now (bytes_waiting device.now host.now)
        (batched from c.old to_device.old to_host.old)
        (batched result c.new to_device.new to_host.new) }
{
    let mut b = from;
    loop {
        let p = b.passed;
        let sort = t[table::SORT + b.state.position as usize];
        if sort == 0 {
            return b;
        }
        if sort == 1 {
            let Some(x) = lane::pass(t, b.state, c, p.device, device, to_host) else {
                return b;
            };
            b = after_turn(x, x.lane, p.host, p.last);
        } else {
            let Some(x) = lane::pass(t, b.state, c, p.host, host, to_device) else {
                return b;
            };
            b = after_turn(x, p.device, x.lane, p.last);
        }
    }
}

// What comes of one turn, whosesoever it is.
#[derive(Clone, Copy)]
struct Turned {
    answer: Option<Verdict>,
    batch: Batched,
}

// One turn: nobody's at an end, the device's or the host's.
fn turn(
    t: &Table,
    b: Batched,
    c: &mut Counts,
    device: &[u8],
    host: &[u8],
    to_device: &mut [u8],
    to_host: &mut [u8],
) -> Turned
    requires { On t.now (bytes_waiting device.now host.now) (batched b c.old to_device.old to_host.old) }
    ensures { turned_told result c.new to_device.new to_host.new
        ≡ one_turn t.now (bytes_waiting device.now host.now)
        (batched b c.old to_device.old to_host.old) }
{
    let s = b.state;
    let p = b.passed;
    // Tried: too slow as a `match`.
    let sort = t[table::SORT + s.position as usize];
    if sort == 0 {
        return Turned {
            answer: None,
            batch: b,
        };
    }
    if sort == 1 {
        let x = lane::take(t, s, c, Party::Device, p.device, device, to_host);
        return Turned {
            answer: x.answer,
            batch: after_turn(x, x.lane, p.host, p.last),
        };
    }
    let x = lane::take(t, s, c, Party::Host, p.host, host, to_device);
    Turned {
        answer: x.answer,
        batch: after_turn(x, p.device, x.lane, p.last),
    }
}

// After a side's turn: the lanes, and the later answer, if there is one.
#[tactic(auto, unfolding(conversation::specs::Batch::latest, conversation::specs::Batch::last_of, conversation::specs::Batch::batched))]
fn after_turn(x: Taken, device: Lane, host: Lane, before: Option<Verdict>) -> Batched
    ensures { (c : Counts) (td th : List ℕ)
        → batched result c td th ≡ record {
          state = x.state;
          counts = c;
          lanes = record { device = lane_of device th; host = lane_of host td };
          last = latest (last_of x.answer) (last_of before);
        } }
{
    let last = x.answer.or(before);
    Batched {
        state: x.state,
        passed: Passed { device, host, last },
    }
}

#[tactic(auto, unfolding(conversation::specs::inner::Keeping::is_last_forwarded, conversation::specs::Conversation::is_forwarded, conversation::specs::Batch::last_of, conversation::specs::Step::told))]
fn is_forwarded(answer: Option<Verdict>) -> bool
    ensures { result ≡ is_last_forwarded (last_of answer) }
{
    matches!(answer, Some(Verdict::Forwarded))
}
