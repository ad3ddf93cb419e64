// Labels differ within a state: no branch has a twin, another of the same owner and label.
ghost use Rattle.std.specs.Prelude.{◌≡◌, ◌<◌, ◌≤◌};
ghost use Rattle.table.specs.inner.Scans.{all, no_twin, mark_of};

use super::{OWNER, Table};

// Whether there is none among the first n branches. The filter is a set of 4,096 marks: a branch whose mark is not yet in it has no
// twin before it, and the others are compared with those before them, so that the pass is not quadratic.
pub fn all_apart(t: &Table, n: usize) -> bool
    requires { n ≤ 128 }
    ensures { result ≡ all n (no_twin t.now) }
{
    let mut seen = [0u32; 128];
    for k in 0..n {
        let m = mark(t[OWNER + k], super::label(t, k));
        let before = seen[m / 32];
        let after = bits::with(before, (m % 32) as u32);
        seen[m / 32] = after;
        if after == before && !is_alone(t, k) {
            return false;
        }
    }
    true
}

// A number below 4,096 that owner and label decide.
#[tactic(auto, unfolding(crate::specs::inner::Scans::mark_of))]
fn mark(owner: u32, label: u64) -> usize
    ensures { (result ≡ mark_of owner label) × (result < 4096) }
{
    let folded = label / 4294967296 + label % 4294967296;
    ((folded * 1640531527 / 16777216 + owner as u64 * 9) % 4096) as usize
}

// Whether branch i has no twin before it.
pub fn is_alone(t: &Table, i: usize) -> bool
    requires { i < 128 }
    ensures { result ≡ no_twin t.now i }
{
    let owner = t[OWNER + i];
    let label = super::label(t, i);
    for k in 0..i {
        if (t[OWNER + k] == owner) & (super::label(t, k) == label) {
            return false;
        }
    }
    true
}
