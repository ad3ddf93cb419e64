// The counts of a conversation: the setting that it is started with, and question 9 on them. They are lent: nothing is copied.
ghost use Rattle.std.specs.Prelude.{◌≡◌, true, ℕ, ◌<◌, get_or, replicate};
ghost use Rattle.table.specs.View.{states_of, branches_of, sound_of};
ghost use Rattle.table.specs.Sound.{added};
ghost use Rattle.table.specs.inner.Scans.{all};
ghost use Rattle.conversation.specs.Counts.{k_at, legal_setting, counts_sound};
ghost use Rattle.conversation.specs.inner.Keeping.{sums_to};

use conversation::Counts;
use table::Table;

// Whether the counts are sound.
#[tactic(auto, using(conversation::proofs::laws::Counts::bad_setting))]
pub fn sound(t: &Table, c: &Counts) -> bool
    requires { sound_of t.now ≡ true }
    ensures { result ≡ counts_sound t.now c.now }
{
    if !setting_legal(u32::from(c[conversation::SETTING])) {
        return false;
    }
    let mut sums = [0; 32];
    add_up(t, c, &mut sums);
    all_added(t, c, &sums)
}

// z, in hundredths.
#[tactic(auto, unfolding(conversation::specs::Counts::legal_setting))]
pub fn setting_legal(z: u32) -> bool
    ensures { result ≡ legal_setting z }
{
    (1..=1000).contains(&z)
}

// Each branch's k, added to its owner's sum.
#[tactic(auto, using(crate::proofs::laws::SumsTo::sum_fits))]
fn add_up(t: &Table, c: &Counts, sums: &mut [u32; 32])
    requires sound { sound_of t.now ≡ true }
    requires empty { sums.old ≡ replicate 32 0 }
    ensures { (i : ℕ) → i < 32 → get_or sums.new i 0 ≡ added t.now (k_at c.now) i (branches_of t.now) }
{
    for k in 0..t[table::BRANCHES] as usize {
        sums[t[table::OWNER + k] as usize] += u32::from(c[conversation::TAKEN + k]);
    }
}

// Whether each choice's n is its sum, and at most 10,000.
#[tactic(auto, using(table::proofs::laws::View::sound_facts, table::proofs::laws::Lists::all_yes, crate::proofs::laws::SumsTo::sums_end, crate::proofs::laws::SumsTo::sums_right), unfolding(table::specs::inner::Scans::all))]
fn all_added(t: &Table, c: &Counts, sums: &[u32; 32]) -> bool
    requires { sound_of t.now ≡ true }
    ensures { result ≡ all (states_of t.now) (sums_to t.now c.now sums.now) }
{
    for i in 0..t[table::STATES] as usize {
        let n = c[conversation::CHOSEN + i];
        if t[table::SORT + i] != 0 && (n > conversation::MOST || sums[i] != u32::from(n)) {
            return false;
        }
    }
    true
}
