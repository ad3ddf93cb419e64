// Whether a branch is picked far too often or too seldom for its share, and the estimate of its share.
ghost use Rattle.std.specs.Prelude.{◌≡◌};
ghost use Rattle.conversation.specs.Warning.{warning};
ghost use Rattle.codes.specs.Codes.{state_in, warning_codes};

use super::steps;
use codes::warnings::Warning;
use conversation::Counts;
use table::Table;

// Asks 9 of the table and the state, then 18.
#[unsafe(no_mangle)]
pub extern "C" fn sojimu_raw_warning(
    table: &Table,
    state: &[u8; 2],
    counts: &Counts,
    branch: u32,
) -> Warning
    ensures { result ≡ warning_codes (warning table.now (state_in state.now) counts.now branch) }
{
    let s = steps::state_in(state);
    Warning::from(questions::warning::of_branch(table, s, counts, branch))
}
