// The monitor over a scan's worth of messages: single steps on the due messages, in turn, over a lent state.
ghost use Rattle.std.specs.Prelude.{◌≡◌};
ghost use Rattle.conversation.specs.Batch.{lent};
ghost use Rattle.codes.specs.Calls.{batching_codes};

use super::steps;
use codes::batches::Batch;
use conversation::Counts;
use table::Table;

// A batch. The state's two bytes, position and standing, and its counts are lent and advanced.
#[unsafe(no_mangle)]
pub extern "C" fn sojimu_raw_batch(
    table: &Table,
    state: &mut [u8; 2],
    counts: &mut Counts,
    device: &[u8],
    host: &[u8],
    to_device: &mut [u8],
    to_host: &mut [u8],
) -> Batch
    ensures { (result, state.new, counts.new, to_device.new, to_host.new)
        ≡ batching_codes table.now state.old counts.old
        (lent device.now host.now to_device.old to_host.old) }
{
    let s = steps::state_in(state);
    let r = monitor::batch::batch(table, s, counts, device, host, to_device, to_host);
    codes::batches::renew(state, r.state);
    Batch::from(r.passed)
}
