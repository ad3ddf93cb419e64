// Document 01's report program. Reads `protocol.txt`, then `device.txt`, in the folder in which it is run, and prints the report.
#![tactic(auto)]

use std::io;
use std::io::Write;

// A byte above the 8,192 that a text may have is enough to refuse it by question 1, so the rest is left. Where
// a read fails, a text that would be read whole is then refused, unless only spaces and line feeds are lost.
fn main(rt: HostRuntime) -> io::Result<()> {
    let mut protocol = [0u8; 8193];
    let mut device = [0u8; 8193];
    let n = files::load(&rt, "protocol.txt", &mut protocol);
    let m = files::load(&rt, "device.txt", &mut device);
    print_report(&rt, &protocol[..n], &device[..m])
}

fn print_report(rt: &impl Print, protocol: &[u8], device: &[u8]) -> io::Result<()> {
    let mut out = [0u8; 16384];
    let n = report::report(protocol, device, &mut out);
    io::writer(rt).write_all(&out[..n])
}
