// The step over a lent state, and whether it goes as a line wants it. The file `monitor` says what the numbers are.
ghost use Rattle.std.specs.Prelude.{◌≡◌};
ghost use Rattle.conversation.specs.Step.{outcome};
ghost use Rattle.conversation.specs.Counts.{counted_step};

use conversation::{Counts, Reason, Standing, State, Stepped, Verdict};
use table::{Party, Table};

// Whether a step goes as it should, and the state that it leads to, which is there in either case.
#[derive(Drop)]
pub struct Outcome {
    pub right: bool,
    pub state: State,
}

// The call: state and counts are lent to it.
fn advanced(
    t: &Table,
    s: State,
    c: &mut Counts,
    side: Party,
    message: &[u8],
    out: &mut [u8],
) -> Stepped
    ensures { (outcome result out.new, c.new)
        ≡ counted_step t.now s c.old side message.now out.old }
{
    let mut state = s;
    let verdict = monitor::advance(t, &mut state, c, side, message, out);
    Stepped { state, verdict }
}

// A step into an output of `room` bytes 0xEE.
pub fn step(
    t: &Table,
    s: State,
    c: &mut Counts,
    side: u64,
    room: u64,
    message: &[u8],
    wanted: &[u8],
) -> Outcome {
    let mut out = [0xEEu8; 512];
    let out = &mut out[..(room % 512) as usize];
    let r = advanced(t, s, c, party_of(side), message, out);
    Outcome {
        right: is_wanted(r, out, wanted),
        state: r.state,
    }
}

// Wanted are the verdict, the state and the output.
fn is_wanted(r: Stepped, out: &[u8], wanted: &[u8]) -> bool {
    let state = r.state;
    let s = [state.position, state.standing as u8];
    6 <= wanted.len()
        && &wanted[..4] == verdict_numbers(r.verdict).as_slice()
        && &wanted[4..6] == s.as_slice()
        && &wanted[6..] == out
}

pub fn verdict_numbers(v: Verdict) -> [u8; 4] {
    match v {
        Verdict::Refused(q) => [0, u8::from(q), 0, 0],
        Verdict::Blamed(p, why) => blame_numbers(p as u8, why),
        Verdict::Forwarded => [2, 0, 0, 0],
    }
}

fn blame_numbers(party: u8, why: Reason) -> [u8; 4] {
    match why {
        Reason::NoLabel => [1, party, 1, 255],
        Reason::OtherKinds => [1, party, 2, 255],
        Reason::OutOfRange(f) => [1, party, 3, f],
        Reason::Early => [1, party, 4, 255],
    }
}

fn party_of(n: u64) -> Party {
    match n {
        0 => Party::Device,
        _ => Party::Host,
    }
}

pub fn state_of(position: u64, standing: u64) -> State {
    State {
        position: (position % 256) as u8,
        standing: standing_of(standing),
    }
}

fn standing_of(n: u64) -> Standing {
    match n {
        1 => Standing::DeviceBlamed,
        2 => Standing::HostBlamed,
        _ => Standing::Running,
    }
}
