// The fit check.
ghost use Rattle.codes.specs.Calls.{Checked};

use codes::fits::Fit;
use table::Table;

// The device's table, the protocol's, and a lent list.
#[unsafe(no_mangle)]
pub extern "C" fn sojimu_raw_fit(device: &Table, protocol: &Table, list: &mut [u16]) -> Fit
    ensures { Checked device.now protocol.now list.old list.new result }
{
    Fit::from(fit::check(device, protocol, list))
}
