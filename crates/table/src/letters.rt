// Labels, eight bytes at once.
ghost use Rattle.std.specs.Prelude.{◌≡◌, ℕ, ◌<◌, ◌≤◌};
ghost use Rattle.table.specs.Table.{legal_label};
ghost use Rattle.table.specs.View.{word_at, label_of};
ghost use Rattle.table.specs.inner.Scans.{all, clear, Word};

use super::Table;

// The high bit of each byte.
pub const HIGH_BITS: u64 = 0x8080_8080_8080_8080;

// Whether the first n labels are legal. Nothing stops this pass early, so that the machine can take several labels at a time.
pub fn all_legal(t: &Table, n: usize) -> bool
    requires { n ≤ 128 }
    ensures { (result ≡ all n (λ k. legal_label (label_of (word_at t.now k))))
        × ((k : ℕ) → k < n → Word (word_at t.now k)) }
{
    let mut bad: u64 = 0;
    for k in 0..n {
        bad |= bad_bytes(super::label(t, k));
    }
    bad & HIGH_BITS == 0
}

// A word that has no high bit exactly where the label is legal.
// Adding 128 - c to a byte below 128 sets its high bit exactly where the byte is at least c, and two such sums differ there exactly
// where it is between the two. 0x20 makes letters small. So the high bits of `other` are those of the bytes that are no letter or digit,
// and of a first byte that is not in A-Z. A byte that is not 0 is bad where it is such a byte or stands after one; the first byte
// counts as not 0.
pub fn bad_bytes(w: u64) -> u64
    ensures { clear result ≡ legal_label (label_of w) }
{
    let small = w | 0x0020_2020_2020_2020;
    let letter = small.wrapping_add(0x3F1F_1F1F_1F1F_1F1F)
        ^ small.wrapping_add(0x2505_0505_0505_0505);
    let digit = w.wrapping_add(0x0050_5050_5050_5050) ^ w.wrapping_add(0x0046_4646_4646_4646);
    let some = w.wrapping_add(0x807F_7F7F_7F7F_7F7F);
    let other = !(letter ^ digit);
    w | (some & (other | (other >> 8)))
}
