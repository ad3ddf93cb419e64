// The states' part of question 9.
ghost use Rattle.std.specs.Prelude.{◌≡◌, ◌≤◌};
ghost use Rattle.table.specs.inner.Scans.{PassedStates};

use super::{SORT, Table};

// The set of the states that are no ends, among the first n; none where one of their sorts is not known. The last state comes first, and
// each moves those before it up by one.
pub fn choices(t: &Table, n: usize) -> Option<u32>
    requires { n ≤ 32 }
    ensures { PassedStates t.now n result }
{
    let mut set = 0;
    for k in (0..n).rev() {
        let sort = t[SORT + k];
        if 2 < sort {
            return None;
        }
        set = 2 * set + (sort + 1) / 2;
    }
    Some(set)
}
