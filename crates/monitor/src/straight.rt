// The straight way of a message that is allowed: what a branch of a sound table holds is legal, so that of 13, 14, 15 and 22 only the
// lengths and the texts' bytes are left to ask.
ghost use Rattle.std.specs.Prelude.{◌≡◌, true, ◌≤◌, ◌<◌, length, IfSome};
ghost use Rattle.table.specs.View.{branches_of, sound_of};
ghost use Rattle.monitor.specs.inner.Leaves.{Facing, Carried, Held, GoesStraight, Leading};

use super::judge;
use questions::ask;
use table::{Party, Table};

// The branch that a message takes which gets a yes to 12 to 16 and 22 and is allowed; none for any other.
pub fn takes(
    t: &Table,
    position: u8,
    sort: u32,
    side: Party,
    message: &[u8],
    room: usize,
) -> Option<usize>
    requires { sound_of t.now ≡ true }
    ensures { IfSome result (λ b. GoesStraight t.now position sort side message.now room b) }
{
    // the room first: a message that is refused by 16 is not looked through for it
    if !ask::has_turn(side, sort) || room < message.len() {
        return None;
    }
    let first = look_ahead(t, position, message, room)?;
    if first.length != message.len() {
        return None;
    }
    Some(first.branch)
}

// The branch that the first message of some bytes takes, and its length.
#[derive(Clone, Copy)]
pub struct Ahead {
    pub branch: usize,
    pub length: usize,
}

// The first message of bytes that may go on, where it is well formed, all there, allowed at the position, and the room holds it.
#[inline(always)]
pub fn look_ahead(t: &Table, position: u8, bytes: &[u8], room: usize) -> Option<Ahead>
    requires { sound_of t.now ≡ true }
    ensures { IfSome result (λ a. Leading t.now position bytes.now room a.length a.branch) }
{
    if bytes.len() < 9 {
        return None;
    }
    let branch = judge::find(t, position, bytes)?;
    let length = held(t, branch, bytes)?;
    if room < length {
        return None;
    }
    Some(Ahead { branch, length })
}

// How long the first message is, where branch b has its fields, it is all there and its texts are UTF-8. ASCII is UTF-8, whatever
// fields it is of.
fn held(t: &Table, b: usize, bytes: &[u8]) -> Option<usize>
    requires { (sound_of t.now ≡ true) × (b < branches_of t.now) × (9 ≤ length bytes.now) }
    ensures { IfSome result (λ n. Held t.now bytes.now b n) }
{
    let count = t[table::FIELDS + b] as u8;
    if bytes[8] != count {
        return None;
    }
    let start = 9 + 5 * usize::from(count);
    if bytes.len() < start {
        return None;
    }
    let texts = carry(t, 4 * b, count, bytes)?;
    let length = start + texts;
    if bytes.len() < length {
        return None;
    }
    if utf8::is_ascii(&bytes[start..length]) {
        return Some(length);
    }
    if !message::legal_texts(&bytes[..length]) {
        return None;
    }
    Some(length)
}

// How many bytes of text the message's fields announce, where those from place `at` on hold them.
fn carry(t: &Table, at: usize, count: u8, message: &[u8]) -> Option<usize>
    requires { Facing t.now message.now at count }
    ensures { IfSome result (λ texts. Carried t.now message.now at count texts) }
{
    let numbers = 9 + usize::from(count);
    let mut texts = 0;
    for f in 0..usize::from(count) {
        let k = at + f;
        let kind = message[9 + f];
        if u32::from(kind) != t[table::KIND + k] {
            return None;
        }
        let number = message::number(message, numbers + 4 * f);
        if !judge::within(t, k, number) {
            return None;
        }
        if kind == 1 {
            texts += (number - 0x8000_0000) as usize;
        }
    }
    Some(texts)
}
