// The batch over a lent state, and whether it goes as a line wants it. The file `batches` says what the numbers are.
ghost use Rattle.std.specs.Prelude.{◌≡◌};
ghost use Rattle.conversation.specs.Batch.{lent, batching, batched};

use super::step::Outcome;
use super::{part, step};
use conversation::batch::{Batched, Passed};
use conversation::{Counts, State, Verdict};
use table::Table;

// The call: state and counts are lent to it.
fn batched(
    t: &Table,
    s: State,
    c: &mut Counts,
    device: &[u8],
    host: &[u8],
    to_device: &mut [u8],
    to_host: &mut [u8],
) -> Batched
    ensures { batched result c.new to_device.new to_host.new
        ≡ batching t.now s c.old
        (lent device.now host.now to_device.old to_host.old) }
{
    let mut state = s;
    let passed = monitor::batch::advance(t, &mut state, c, device, host, to_device, to_host);
    Batched { state, passed }
}

// A batch into outputs of `room_device` and `room_host` bytes 0xEE.
pub fn batch(
    t: &Table,
    s: State,
    c: &mut Counts,
    room_device: u64,
    room_host: u64,
    device: &[u8],
    host: &[u8],
    wanted: &[u8],
) -> Outcome {
    let mut to_device = [0xEEu8; 512];
    let mut to_host = [0xEEu8; 512];
    let to_device = &mut to_device[..(room_device % 512) as usize];
    let to_host = &mut to_host[..(room_host % 512) as usize];
    let r = batched(t, s, c, device, host, to_device, to_host);
    Outcome {
        right: is_wanted(r, to_device, to_host, wanted),
        state: r.state,
    }
}

// Wanted are ten numbers and the outputs.
fn is_wanted(r: Batched, to_device: &[u8], to_host: &[u8], wanted: &[u8]) -> bool {
    let n = 10 + to_device.len();
    n <= wanted.len()
        && &wanted[..10] == numbers_of(r).as_slice()
        && &wanted[10..n] == to_device
        && &wanted[n..] == to_host
}

// How many bytes are used of the device's and of the host's, and written to the device and to the host, no line having more than
// 0xFF of any; the last answer and the state.
fn numbers_of(r: Batched) -> [u8; 10] {
    let Batched { state, passed } = r;
    let Passed { device, host, last } = passed;
    let [a, b, c, d] = last_numbers(last);
    [
        (device.used % 256) as u8,
        (host.used % 256) as u8,
        (host.written % 256) as u8,
        (device.written % 256) as u8,
        a,
        b,
        c,
        d,
        state.position,
        state.standing as u8,
    ]
}

fn last_numbers(last: Option<Verdict>) -> [u8; 4] {
    match last {
        None => [3, 0, 0, 0],
        Some(v) => step::verdict_numbers(v),
    }
}
