// The branches' part of question 9: one pass where they are few, a pass for each matter where they are many.
ghost use Rattle.std.specs.Prelude.{◌≡◌, ◌+◌, ◌<◌, ◌≤◌};
ghost use Rattle.table.specs.inner.Scans.{all, legal_at, in_place, PassedLabels, PassedPlaces, PassedBranches};

use super::{FIELDS, HIGH, KIND, LOW, OWNER, SHARE, TARGET, Table, apart, letters};

// What a pass over branches finds where all is right: the set of the owners, and the shares' bits together, which are 0 where no branch
// has one.
#[derive(Clone, Copy)]
pub struct Passed {
    pub set: u32,
    pub shares: u32,
}

// The first n branches, in a table of m states; none where one of them is not in order.
pub fn owners(t: &Table, n: usize, m: u32) -> Option<Passed>
    requires { (n ≤ 128) × (m ≤ 32) }
    ensures { PassedBranches t.now n m result }
{
    if n <= 8 {
        return few(t, n, m);
    }
    if !labels(t, n) {
        return None;
    }
    places(t, n, m)
}

// All that is asked of a branch, then the next: for few branches, to begin a pass costs more than the pass.
fn few(t: &Table, n: usize, m: u32) -> Option<Passed>
    requires { (n ≤ 128) × (m ≤ 32) }
    ensures { PassedBranches t.now n m result }
{
    let mut set = 0;
    let mut shares = 0;
    for k in 0..n {
        if !in_place(t, k, m) || !super::label_legal(super::label(t, k)) || !apart::is_alone(t, k) {
            return None;
        }
        set = bits::with(set, t[OWNER + k]);
        shares |= t[SHARE + k];
    }
    Some(Passed { set, shares })
}

// Whether the first n labels are legal and differ within a state.
fn labels(t: &Table, n: usize) -> bool
    requires { n ≤ 128 }
    ensures { PassedLabels t.now n result }
{
    letters::all_legal(t, n) && apart::all_apart(t, n)
}

// Owners, targets and fields of the first n branches, the set of the owners, and the shares.
fn places(t: &Table, n: usize, m: u32) -> Option<Passed>
    requires { (n ≤ 128) × (m ≤ 32) }
    ensures { PassedPlaces t.now n m result }
{
    let mut set = 0;
    let mut shares = 0;
    for k in 0..n {
        if !in_place(t, k, m) {
            return None;
        }
        set = bits::with(set, t[OWNER + k]);
        shares |= t[SHARE + k];
    }
    Some(Passed { set, shares })
}

// Whether branch k's owner and target are among m states, and its fields keep their limits.
#[tactic(auto, using(std::proofs::lemmas::Bool::Decides::nat_tests), unfolding(crate::specs::inner::Scans::in_place))]
fn in_place(t: &Table, k: usize, m: u32) -> bool
    requires { k < 128 }
    ensures { result ≡ in_place t.now m k }
{
    let count = t[FIELDS + k];
    t[OWNER + k] < m && t[TARGET + k] < m && count <= 4 && ranges_legal(t, 4 * k, count)
}

// Whether the ranges of `count` fields from place `at` on are legal.
fn ranges_legal(t: &Table, at: usize, count: u32) -> bool
    requires { (at ≤ 508) × (count ≤ 4) }
    ensures { result ≡ all count (λ f. legal_at t.now (at + f)) }
{
    for f in 0..count {
        let k = at + f as usize;
        if !super::range_legal(t[KIND + k], t[LOW + k], t[HIGH + k]) {
            return false;
        }
    }
    true
}
