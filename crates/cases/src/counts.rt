// The counts of a conversation as the lines of a file have them: the setting z, n of each state of the table, k of each branch.
ghost use Rattle.std.specs.Prelude.{◌≤◌};

use crate::line::Line;
use conversation::{CHOSEN, Counts, SETTING, TAKEN};
use table::Table;

// Nothing counted, with the setting of the files: 200 hundredths.
pub fn none() -> Counts {
    let mut c = [0u16; 161];
    c[SETTING] = 200;
    c
}

// Those of a line, of which z stands at place 2.
pub fn of(t: &Table, numbers: &[u64; 512]) -> Counts {
    let mut c = none();
    let m = states(t);
    c[SETTING] = (numbers[2] % 65536) as u16;
    put(&mut c[CHOSEN..CHOSEN + m], &numbers[3..]);
    put(&mut c[TAKEN..TAKEN + branches(t)], &numbers[3 + m..]);
    c
}

// Whether n and k are the wanted numbers of a line, and no more are there.
pub fn are(t: &Table, c: &Counts, line: &Line) -> bool {
    let (from, to) = (line.given, line.total);
    let numbers = &line.numbers;
    let m = states(t);
    let n = branches(t);
    from <= 256
        && to == from + m + n
        && same(&c[CHOSEN..CHOSEN + m], &numbers[from..from + m])
        && same(&c[TAKEN..TAKEN + n], &numbers[from + m..from + m + n])
}

fn states(t: &Table) -> usize
    ensures { result ≤ 32 }
{
    (t[table::STATES] % 33) as usize
}

fn branches(t: &Table) -> usize
    ensures { result ≤ 128 }
{
    (t[table::BRANCHES] % 129) as usize
}

fn put(counts: &mut [u16], numbers: &[u64]) {
    for (n, number) in counts.iter_mut().zip(numbers) {
        *n = (number % 65536) as u16;
    }
}

fn same(counts: &[u16], numbers: &[u64]) -> bool {
    counts
        .iter()
        .zip(numbers)
        .all(|(n, number)| u64::from(*n) == *number)
}
