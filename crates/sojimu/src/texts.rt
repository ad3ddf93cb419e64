// Protocol texts: reading one, and the report of two.
ghost use Rattle.std.specs.Prelude.{◌≡◌};
ghost use Rattle.grammar.specs.Reading.{reads};
ghost use Rattle.report.specs.Report.{Written};

use grammar::Reading;

// Questions 1 to 8, 19, 20 and 23.
#[unsafe(no_mangle)]
pub extern "C" fn sojimu_raw_read(text: &[u8]) -> Reading
    ensures { result ≡ reads text.now }
{
    text::read(text)
}

// The report's length; 0 where the buffer does not hold it, and then the buffer is unchanged: C takes no `Option`.
#[unsafe(no_mangle)]
pub extern "C" fn sojimu_raw_report(protocol: &[u8], device: &[u8], out: &mut [u8]) -> usize
    ensures { Written protocol.now device.now out.old out.new result }
{
    report::report(protocol, device, out)
}
