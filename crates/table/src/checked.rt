// A table of which question 9 was asked, and got a yes.
ghost use Rattle.std.specs.Prelude.{◌≡◌, ◌≤◌, true, false, MatchOption};
ghost use Rattle.table.specs.View.{branches_of, sound_of};

use super::Table;

// What asks question 9 hands this on, so that nothing after it asks again.
#[derive(Clone, Copy)]
pub struct Sound<'a> {
    pub words: &'a Table,
    pub ghost sound: { sound_of words.now ≡ true },
    pub ghost few: { branches_of words.now ≤ 128 },
}

impl<'a> Sound<'a> {
    // Question 9: the table, where it is sound.
    pub fn of(t: &'a Table) -> Option<Sound<'a>>
        ensures { MatchOption result (sound_of t.now ≡ false) (λ s. s.words.now ≡ t.now) }
    {
        if !super::sound(t) {
            return None;
        }
        Some(Sound { words: t })
    }
}
