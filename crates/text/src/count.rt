// A number from 1 to a limit: a share or an edition.
ghost use Rattle.std.specs.Prelude.{◌≡◌, ◌≤◌};
ghost use Rattle.table.specs.Question.{number};
ghost use Rattle.grammar.specs.inner.Scanner.{token_at};
ghost use Rattle.text.specs.inner.Recursive.{told_count, count_from};

use crate::cursor::{Cursor, Refusal};
use crate::kind::Kind;
use crate::{cursor, number};
use table::Question;

impl Cursor<'_> {
    // A number from 1 to `most`, read as an int in offset form; the question for any other.
    #[tactic(auto, using(crate::proofs::laws::NumberRead::kept_in, crate::proofs::laws::NumberRead::kept_out, crate::proofs::laws::NumberRead::count_is, crate::proofs::laws::NumberRead::count_low, crate::proofs::laws::NumberRead::count_high, crate::proofs::laws::NumberRead::count_int), unfolding(crate::specs::inner::Recursive::count_from))]
    pub fn count(&mut self, most: u32, question: Question) -> Result<u32, Refusal>
        requires { most ≤ 2147483647 }
        ensures same { self.new.text ≡ self.old.text }
        ensures is { told_count result self.new.at ≡ count_from most (number question) self.old.text.now (token_at self.old.text.now self.old.at) }
    {
        let k = self.token();
        if k.kind != Kind::Number {
            return Err(cursor::unexpected(k));
        }
        match number::number_in(&self.text[k.start..k.end], 0) {
            Some(n) if 0x8000_0000 < n && n - 0x8000_0000 <= most => {
                self.at = k.end;
                Ok(n - 0x8000_0000)
            }
            _ => Err(Refusal::new(question, k.start)),
        }
    }
}
