// Document 01's report of two texts, a protocol's and a device's: which of them is refused, or whether the device fits the
// protocol, with the moves that show it where it does not. The protocol is read first.
// The text opens the lent buffer, the rest of which is unchanged. Where the buffer does not hold it, the answer is 0 and nothing
// changes. 16,384 bytes hold every report.
#![tactic(auto)]

ghost use Rattle.std.specs.Prelude.{◌≡◌, []};
ghost use Rattle.table.specs.View.{view};
ghost use Rattle.report.specs.Report.{Compared, Reported, Written};

use machine::Fitting;
use play::Machine;
use table::Sound;
use write::Report;

mod play;
mod write;

// The report's length, or 0.
pub fn report(protocol: &[u8], device: &[u8], out: &mut [u8]) -> usize
    ensures { Written protocol.now device.now out.old out.new result }
{
    let mut report = Report::new();
    compose(protocol, device, &mut report);
    let bytes = report.bytes();
    let n = bytes.len();
    if out.len() < n {
        return 0; // `Written` gives 0
    }
    out[..n].copy_from_slice(bytes);
    n
}

// The report of two texts.
fn compose(protocol: &[u8], device: &[u8], report: &mut Report)
    requires { report.old ≡ [] }
    ensures { Reported protocol.now device.now report.new }
{
    let p = text::read(protocol);
    if p.question != 0 { // no plainer: `reads` gives this struct
        report.refused(b"protocol", p.question as u16, p.at as u16);
        return;
    }
    let d = text::read(device);
    if d.question != 0 { // no plainer: `reads` gives this struct
        report.refused(b"device", d.question as u16, d.at as u16);
        return;
    }
    // Question 9 need not be asked: tables that are read are sound.
    let machine = Machine {
        d: Sound { words: &d.table },
        p: Sound { words: &p.table },
    };
    compare(machine, report);
}

// The report of two tables.
fn compare(m: Machine, report: &mut Report)
    requires { report.old ≡ [] }
    ensures { Compared (view m.entry.d.words.now) (view m.entry.p.words.now) report.new }
{
    let mut list = [0; 1024];
    match fit::check(m.d.words, m.p.words, &mut list) {
        Ok(Fitting::Fits { pairs }) => report.counted(b"fit ", pairs),
        Ok(Fitting::Fails { moves, high }) => {
            report.counted(b"no fit ", moves);
            m.moves(&list[..usize::from(moves)], high, report);
        }
        Err(_) => {} // not met: sound tables pass 9, and the list has room for 32 times 32
    }
}
