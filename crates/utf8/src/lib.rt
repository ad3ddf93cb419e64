// Well-formed UTF-8 (RFC 3629), for the texts of messages.
#![tactic(auto)]

ghost use Rattle.std.specs.Prelude.{◌≡◌, true, ◌+◌, ◌≤◌, ◌<◌, length, get_or};
ghost use Rattle.utf8.specs.Utf8.{is_utf8, within, utf8_tail};
ghost use Rattle.utf8.specs.inner.Characters.{is_ascii, Ascii, AsciiTo, Width, char_size, second};

// Whether the bytes are well-formed UTF-8: a word at a time behind an ASCII byte, else one character after another.
pub fn is_utf8(bytes: &[u8]) -> bool
    ensures { result ≡ is_utf8 bytes.now }
{
    let mut i = ascii(bytes, 0);
    // no `for`: a step is as long as the character
    while i < bytes.len() {
        let Some(n) = width(bytes, i) else {
            return false;
        };
        i += n;
        if n == 1 {
            i = ascii(bytes, i);
        }
    }
    true
}

// Whether every byte is ASCII.
pub fn is_ascii(bytes: &[u8]) -> bool
    ensures { result ≡ is_ascii bytes.now }
{
    let from = blocks(bytes);
    ascii(bytes, from) == bytes.len()
}

// How far ASCII goes from the front, by blocks of four words.
fn blocks(bytes: &[u8]) -> usize
    ensures { Ascii bytes.now 0 result }
{
    let mut i = 0;
    for part in bytes.chunks_exact(32) {
        if !block(part) {
            break;
        }
        i += 32;
    }
    i
}

// Whether four words are ASCII, by one test.
fn block(bytes: &[u8]) -> bool
    requires { length bytes.now ≡ 32 }
    ensures { result ≡ true → Ascii bytes.now 0 32 }
{
    let front = high(bytes, 0) | high(bytes, 8);
    let back = high(bytes, 16) | high(bytes, 24);
    front | back == 0
}

// How far ASCII goes from a place on: by words, and the last few bytes one by one.
fn ascii(bytes: &[u8], from: usize) -> usize
    requires { from ≤ length bytes.now }
    ensures { AsciiTo bytes.now from result }
{
    let mut i = from;
    // no `for`: it goes on from the place where it stops, which any form counts
    while bytes.len() - i >= 8 {
        if high(bytes, i) != 0 {
            return letters(bytes, i);
        }
        i += 8;
    }
    letters(bytes, i)
}

// The same one by one.
fn letters(bytes: &[u8], from: usize) -> usize
    requires { from ≤ length bytes.now }
    ensures { AsciiTo bytes.now from result }
{
    for i in from..bytes.len() {
        if !bytes[i].is_ascii() {
            return i;
        }
    }
    bytes.len()
}

// The high bits of the word of eight bytes at a place: as the machine loads it, so that no byte is moved.
fn high(bytes: &[u8], at: usize) -> u64
    requires { at + 8 ≤ length bytes.now }
    ensures { result ≡ 0 → Ascii bytes.now at (at + 8) }
{
    let word = u64::from_le_bytes(<[u8; 8]>::try_from(&bytes[at..at + 8]).unwrap());
    word & 0x8080_8080_8080_8080
}

// The length of the character at a place, if one stands there.
#[tactic(auto, using(std::proofs::lemmas::Bool::Decides::nat_tests, crate::proofs::laws::Characters::width_one, crate::proofs::laws::Characters::width_none), unfolding(crate::specs::inner::Characters::char_size))]
fn width(bytes: &[u8], at: usize) -> Option<usize>
    requires { at < length bytes.now }
    ensures { Width bytes.now at result }
{
    match bytes[at] {
        0..=0x7F => Some(1),
        0xC2..=0xDF => longer(bytes, at, 2),
        0xE0..=0xEF => longer(bytes, at, 3),
        0xF0..=0xF4 => longer(bytes, at, 4),
        _ => None,
    }
}

// The same behind a lead that announces n bytes, at least two. Each call names its n, so the compiler makes a function for each.
fn longer(bytes: &[u8], at: usize, n: usize) -> Option<usize>
    requires { (at < length bytes.now) × (char_size (get_or bytes.now at 0) ≡ n) × (2 ≤ n) }
    ensures { Width bytes.now at result }
{
    if bytes.len() - at < n {
        return None;
    }
    let whole = second(bytes[at], bytes[at + 1])
        && (n < 3 || tail(bytes[at + 2]))
        && (n < 4 || tail(bytes[at + 3]));
    whole.then_some(n)
}

// Whether byte b may follow the lead a.
#[tactic(auto, using(std::proofs::lemmas::Bool::Decides::nat_tests), unfolding(crate::specs::Utf8::within, crate::specs::inner::Characters::second))]
fn second(a: u8, b: u8) -> bool
    ensures { result ≡ within (second a) b }
{
    match a {
        0xE0 => matches!(b, 0xA0..=0xBF),
        0xED => matches!(b, 0x80..=0x9F),
        0xF0 => matches!(b, 0x90..=0xBF),
        0xF4 => matches!(b, 0x80..=0x8F),
        _ => tail(b),
    }
}

// Whether byte b may follow those two.
#[tactic(auto, using(std::proofs::lemmas::Bool::Decides::nat_tests), unfolding(crate::specs::Utf8::within))]
fn tail(b: u8) -> bool
    ensures { result ≡ within utf8_tail b }
{
    matches!(b, 0x80..=0xBF)
}
