// The shares' part of question 9: each choice has none, or one for each branch, which add to 1000.
ghost use Rattle.std.specs.Prelude.{◌≡◌, ◌<◌, ◌≤◌, length, slice_index};
ghost use Rattle.table.specs.Table.{shares_kept};
ghost use Rattle.table.specs.View.{view};
ghost use Rattle.table.specs.inner.Scans.{all, Owned, weight_of, right_sum};

use super::{OWNER, SHARE, Table};

// What a branch without a share adds: more than all shares together, so that no sum hides it.
const NONE: u32 = 1048576;

// Whether the shares of the n branches of a table of m states keep their rules: none is above 1000, and those of each choice are none or
// add to 1000.
pub fn right(t: &Table, n: usize, m: usize) -> bool
    requires { Owned t.now n m }
    ensures { result ≡ shares_kept (view t.now) }
{
    let mut sums = [0u32; 32];
    for k in 0..n {
        let share = t[SHARE + k];
        if 1000 < share {
            return false;
        }
        sums[t[OWNER + k] as usize] += weight(share);
    }
    all_right(&sums[..m])
}

#[tactic(auto, using(std::proofs::lemmas::Bool::Decides::nat_tests), unfolding(crate::specs::inner::Scans::weight_of))]
fn weight(share: u32) -> u32
    requires { share ≤ 1000 }
    ensures { (result ≡ weight_of share) × (result ≤ 1048576) }
{
    if share == 0 { NONE } else { share }
}

// Whether each sum is that of no shares, or of 1000 in all.
fn all_right(sums: &[u32]) -> bool
    ensures { result ≡ all (length sums.now) (λ i. right_sum (slice_index sums.now i)) }
{
    for sum in sums {
        if *sum % NONE != 0 && *sum != 1000 {
            return false;
        }
    }
    true
}
