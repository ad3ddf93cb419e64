// The share of a branch, and the dot before its type.
ghost use Rattle.std.specs.Prelude.{◌≡◌};
ghost use Rattle.text.specs.inner.Recursive.{told_count, shared_at};

use crate::cursor::{Cursor, Refusal};
use crate::limits;
use table::Question;

impl Cursor<'_> {
    // After a branch's fields: a dot, or `@`, a share and a dot. The number is the share, 0 for none.
    #[tactic(auto, using(crate::proofs::laws::ExpectAt::expect_yes, crate::proofs::laws::ExpectAt::expect_no, crate::proofs::laws::Told::asked), unfolding(crate::specs::inner::Recursive::shared_at, crate::specs::inner::Recursive::dotted, crate::specs::inner::Recursive::passed, crate::specs::inner::Recursive::then_dot))]
    pub fn share(&mut self) -> Result<u32, Refusal>
        ensures same { self.new.text ≡ self.old.text }
        ensures is { told_count result self.new.at ≡ shared_at self.old.text.now self.old.at }
    {
        if self.expect_dot().is_ok() {
            return Ok(0);
        }
        self.expect_sign(b'@')?;
        let share = self.count(limits::SHARE, Question::BadShare)?;
        self.expect_dot()?;
        Ok(share)
    }
}
