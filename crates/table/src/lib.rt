// Tables of document 01: question 9 (is it sound?), the dual, and what is asked of one label and of one range.
// A table is one array of words, and it is lent. The words may be anything: each call that takes a table asks question 9 of it before
// anything else. Here the dual alone can refuse: by 9, with the empty table.
#![tactic(auto)]

ghost use Rattle.std.specs.Prelude.{◌≡◌, ◌<◌};
ghost use Rattle.table.specs.Table.{legal_label, legal_field};
ghost use Rattle.table.specs.View.{joined_label, word_at, label_of, regular_of, sound_of, sound_at, empty_table, opposite_of, turned, dual_of};
ghost use Rattle.table.specs.inner.Scans.{Word};

mod apart;
mod branches;
mod checked;
mod letters;
mod refusal;
mod shares;
mod states;

pub use checked::Sound;
pub use refusal::Question;

#[derive(Clone, Copy, Debug, PartialEq, Eq)]
pub enum Party {
    Device,
    Host,
}

// The number of states and that of branches, and then one run of words after another:
// - 32 sorts, a word for each state: 0 end, 1 sends, 2 receives;
// - 128 owners, targets, field counts, high and low words of labels. A label is eight bytes, filled up with 0x00; its high word has
//   the first four, the first of them highest;
// - 512 kinds (0 int, 1 text, 2 flag), lows and highs: field f of branch b has place 4 * b + f. Numbers are in offset form, 2^31 more
//   than what they stand for: an int, a text's length in bytes, 0 for false, 1 for true.
// - 128 shares, in thousandths, 0 for none;
// - the edition, 1 or 2, and a word that is kept free. Nothing looks at that one, nor at what is beyond the counts.
pub type Table = [u32; 2340];

pub const STATES: usize = 0;

pub const BRANCHES: usize = 1;

pub const SORT: usize = 2;

pub const OWNER: usize = 34;

pub const TARGET: usize = 162;

pub const FIELDS: usize = 290;

pub const LABEL_HIGH: usize = 418;

pub const LABEL_LOW: usize = 546;

pub const KIND: usize = 674;

pub const LOW: usize = 1186;

pub const HIGH: usize = 1698;

pub const SHARE: usize = 2210;

pub const EDITION: usize = 2338;

// Question 9: is the table sound, do its shares keep their rules, and is its edition 1 or 2?
#[tactic(auto, using(std::proofs::lemmas::Bool::Decides::nat_tests), unfolding(crate::specs::View::sound_of, crate::specs::Table::known_edition))]
pub fn sound(t: &Table) -> bool
    ensures { result ≡ sound_of t.now }
{
    matches!(t[EDITION], 1 | 2) && regular(t)
}

// The states that are choices are those that own a branch.
fn regular(t: &Table) -> bool
    ensures { result ≡ regular_of t.now }
{
    let m = t[STATES];
    let n = t[BRANCHES];
    if m == 0 || 32 < m || 128 < n {
        return false;
    }
    let Some(choices) = states::choices(t, m as usize) else {
        return false;
    };
    let Some(owners) = branches::owners(t, n as usize, m) else {
        return false;
    };
    owners.set == choices && (owners.shares == 0 || shares::right(t, n as usize, m as usize))
}

// Question 9 where a position is given: is it one of the table's states, too?
#[tactic(auto, using(std::proofs::lemmas::Bool::Decides::nat_tests), unfolding(crate::specs::View::sound_at))]
pub fn sound_at(t: &Table, position: u32) -> bool
    ensures { result ≡ sound_at t.now position }
{
    sound(t) && position < t[STATES]
}

// The label of branch k. Other crates join its two words: no function that they can call asks for anything.
fn label(t: &Table, k: usize) -> u64
    requires { k < 128 }
    ensures { (result ≡ word_at t.now k) × Word result }
{
    label_word(t[LABEL_HIGH + k], t[LABEL_LOW + k])
}

// A label's two words as one.
pub fn label_word(high: u32, low: u32) -> u64
    ensures { result ≡ joined_label high low }
{
    high as u64 * 4294967296 + low as u64
}

// Letters and digits, the first in A-Z, then 0x00 to the end.
pub fn label_legal(w: u64) -> bool
    ensures { result ≡ legal_label (label_of w) }
{
    letters::bad_bytes(w) & letters::HIGH_BITS == 0
}

// A range is not empty and keeps to its kind.
#[tactic(auto, using(std::proofs::lemmas::Bool::Decides::nat_tests, crate::proofs::laws::LegalField::range_unknown), unfolding(crate::specs::Table::legal_field, crate::specs::Table::within_kind))]
pub fn range_legal(kind: u32, low: u32, high: u32) -> bool
    ensures { result ≡ legal_field (record { kind = kind; low = low; high = high }) }
{
    low <= high
        && match kind {
            0 => true,
            1 => 0x8000_0000 <= low && high <= 0x8000_0040,
            2 => 0x8000_0000 <= low && high <= 0x8000_0001,
            _ => false,
        }
}

// What the dual is given with: 0, or 9 and the empty table where the table is not sound. No `Result`: C reads it as it is.
#[repr(C)]
#[derive(Drop)]
pub struct Turned {
    pub question: u32,
    pub table: Table,
}

// The dual exchanges sending and receiving.
pub fn dual(t: &Table) -> Turned
    ensures { result ≡ dual_of t.now }
{
    if !sound(t) {
        return Turned {
            question: u32::from(Question::Unsound),
            table: empty(),
        };
    }
    let mut r = Turned {
        question: 0,
        table: *t,
    };
    turn(&mut r.table);
    r
}

// Each sort's opposite: 1 and 2 are exchanged.
fn turn(t: &mut Table)
    ensures { t.new ≡ turned t.old }
{
    for k in 0..32 {
        t[SORT + k] = opposite_sort(t[SORT + k]);
    }
}

#[tactic(auto, using(crate::proofs::laws::DualOf::opposite_same), unfolding(crate::specs::View::opposite_of))]
fn opposite_sort(s: u32) -> u32
    ensures { result ≡ opposite_of s }
{
    match s {
        1 => 2,
        2 => 1,
        _ => s,
    }
}

// The table that a refusal gives back.
#[tactic(auto, unfolding(crate::specs::View::empty_table))]
pub fn empty() -> Table
    ensures { result ≡ empty_table }
{
    [0; 2340]
}
