// The edition that a text may open with.
ghost use Rattle.std.specs.Prelude.{◌≡◌};
ghost use Rattle.table.specs.View.{empty_table};
ghost use Rattle.text.specs.inner.Recursive.{Gives, told_step, edition_at, opening_of};

use crate::cursor::{Cursor, Refusal};
use crate::kind::Kind;
use crate::limits;
use table::{Question, Table};

// The word `edition` and its number, which the table gets; without them the edition is 1, and the type comes first.
pub fn read_opening(c: &mut Cursor<'_>, t: &mut Table) -> Result<(), Refusal>
    requires start { c.old.at ≡ 0 }
    requires empty { t.old ≡ empty_table }
    ensures same { c.new.text ≡ c.old.text }
    ensures is { Gives (opening_of c.old.text.now) (told_step result c.new.at) t.new }
{
    let k = c.token();
    if k.kind == Kind::Edition {
        c.at = k.end;
        return read_edition(c, t);
    }
    t[table::EDITION] = 1;
    Ok(())
}

#[tactic(auto, using(crate::proofs::laws::ReadText::edition_read, crate::proofs::laws::ReadText::edition_refused, table::proofs::laws::Question::number_no_zero))]
fn read_edition(c: &mut Cursor<'_>, t: &mut Table) -> Result<(), Refusal>
    requires { t.old ≡ empty_table }
    ensures same { c.new.text ≡ c.old.text }
    ensures is { Gives (edition_at c.old.text.now c.old.at) (told_step result c.new.at) t.new }
{
    t[table::EDITION] = c.count(limits::EDITION, Question::BadEdition)?;
    Ok(())
}
