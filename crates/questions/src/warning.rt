// Whether a branch is picked far too often or too seldom for its share, and the estimate of its share.
ghost use Rattle.std.specs.Prelude.{◌≡◌, ◌≤◌};
ghost use Rattle.conversation.specs.Warning.{warns, estimate, warning, estimate_of, notice_of};

use super::ask;
use conversation::warning::Notice;
use conversation::{Counts, State};
use table::{Question, Table};

// What is told of a branch. Asks 9 of the table, the state and the counts, then 18.
#[tactic(auto, using(conversation::proofs::laws::Warning::warned_9, conversation::proofs::laws::Warning::facts_told, conversation::proofs::laws::Warning::warned_18, conversation::proofs::laws::Warning::known_told, conversation::proofs::laws::Warning::warned))]
pub fn of_branch(t: &Table, s: State, c: &Counts, branch: u32) -> Result<Notice, Question>
    ensures { notice_of result ≡ warning t.now s c.now branch }
{
    ask::sound(t, s, c)?;
    if t[table::BRANCHES] <= branch {
        return Err(Question::NoBranch);
    }
    let b = branch as usize;
    let i = t[table::OWNER + b] as usize;
    let z = u64::from(c[conversation::SETTING]);
    let w = u64::from(t[table::SHARE + b]);
    let n = u64::from(c[conversation::CHOSEN + i]);
    let k = u64::from(c[conversation::TAKEN + b]);
    Ok(Notice {
        warns: is_far(z, w, n, k),
        sender: ask::sender(t[table::SORT + i]),
        estimate: estimated(n, k),
    })
}

// The numbers of sound counts: both sides are at most 10^18.
#[tactic(auto, using(conversation::proofs::laws::Warning::no_share, conversation::proofs::laws::Warning::with_share, conversation::proofs::laws::Warning::far_most, conversation::proofs::laws::Warning::third_most, conversation::proofs::laws::Warning::edge_most), unfolding(conversation::specs::Warning::square, conversation::specs::Warning::difference))]
fn is_far(z: u64, w: u64, n: u64, k: u64) -> bool
    requires { (z ≤ 1000) × (w ≤ 1000) × (n ≤ 10000) × (k ≤ n) }
    ensures { result ≡ warns z w n k }
{
    if w == 0 {
        return false;
    }
    let away = (1000 * k).abs_diff(w * n);
    z * z * w * (1000 - w) * n < 10000 * (away * away)
}

// To the nearest whole, halves up.
#[tactic(auto, using(conversation::proofs::laws::Warning::estimate_some), unfolding(conversation::specs::Warning::estimate, conversation::specs::Warning::rounded, conversation::specs::Warning::estimate_of))]
fn estimated(n: u64, k: u64) -> Option<u32>
    requires { (n ≤ 10000) × (k ≤ n) }
    ensures { estimate_of result ≡ estimate n k }
{
    if n == 0 {
        return None;
    }
    let e = (2 * (1000 * k) + n) / (2 * n);
    Some(e as u32)
}
