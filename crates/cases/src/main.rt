// Puts the steps of the file `monitor` through `monitor::advance`, the step over a lent state, the batches of the file `batches`
// through `monitor::batch::advance`, the batch over one, and those of the files `counts` and `editions` through both, with what they
// count. No export can reach either: an enum cannot cross to C. A step, a batch or counts that go wrong are printed by the line's
// letter and number; the last line of a file counts them.
//   j edits                    the table of the lines after it: the empty table with these edits, each of them column, index and value
//   g                          the state of a fresh conversation
//   f z                        the same, with the setting z
//   i position standing z n.. k..        any state
//   e = n.. k..                the counts of the conversation
//   s position standing side room message = verdict position standing output     a step from the state that the line gives
//   u side room message = verdict position standing output                       a step from the state that the line before it left
//   b position standing room room length device.. host.. = counts answer position standing output output      a batch from that state
//   c room room length device.. host.. = counts answer position standing output output                        or from the one left
// What j, g, f and i want, the lines w, which ask for the due part, and three lines b, whose standing is no code, are left to the tests
// in Rust: 39 of the 688 cases of `monitor` and 13 of the 135 of `batches`.
#![tactic(auto)]

ghost use Rattle.std.specs.Prelude.{◌≤◌};

use conversation::{Counts, State};
use line::{Command, Line};
use std::io;
use std::rt::Files;
use step::Outcome;
use table::Table;

mod batch;
mod counts;
mod line;
mod step;

// How many lines, steps, batches and counts there were, and how many of the last three went wrong. No count wraps: at most 65,536
// bytes of a file are read.
#[derive(Clone, Copy)]
struct Tally {
    lines: u64,
    steps: u64,
    batches: u64,
    counts: u64,
    wrong: u64,
}

impl Tally {
    fn new() -> Tally {
        Tally {
            lines: 0,
            steps: 0,
            batches: 0,
            counts: 0,
            wrong: 0,
        }
    }

    // A line more.
    fn count(&mut self, command: Option<Command>, right: bool) {
        self.lines = self.lines.wrapping_add(1);
        match command {
            Some(Command::Step | Command::NextStep) => self.steps = self.steps.wrapping_add(1),
            Some(Command::Batch | Command::NextBatch) => self.batches = self
                .batches
                .wrapping_add(1),
            Some(Command::Counts) => self.counts = self.counts.wrapping_add(1),
            _ => {}
        }
        if !right {
            self.wrong = self.wrong.wrapping_add(1);
        }
    }
}

// Where a column begins, by its number in the files: states, branches, sort, owner, target, fields, label, kind, low, high, share, edition.
fn column(n: u64) -> usize
    ensures { result ≤ 2338 }
{
    match n {
        0 => table::STATES,
        1 => table::BRANCHES,
        2 => table::SORT,
        3 => table::OWNER,
        4 => table::TARGET,
        5 => table::FIELDS,
        6 => table::LABEL_LOW,
        7 => table::KIND,
        8 => table::LOW,
        9 => table::HIGH,
        10 => table::SHARE,
        _ => table::EDITION,
    }
}

// The empty table with the edits, each of them column, index and value. A label is one number in the file, and two words in the table.
fn build(l: &Line) -> Table {
    let mut t = table::empty();
    for edit in l.numbers.chunks_exact(3).take(l.given.div_ceil(3)) {
        let index = (edit[1] % 512) as usize;
        let value = edit[2];
        if let Some(word) = t.get_mut(column(edit[0]) + index) {
            *word = (value % 4294967296) as u32;
        }
        if edit[0] == 6 {
            t[table::LABEL_HIGH + index] = (value / 4294967296) as u32;
        }
    }
    t
}

// The bytes from one place up to another; none where there are no such places.
fn part<'a>(bytes: &'a [u8], from: usize, to: usize) -> &'a [u8] {
    bytes.get(from..to).unwrap_or(&[])
}

// The step of a line whose message begins at `from`, its side and the room before it.
fn step_of(l: &Line, from: usize, t: &Table, s: State, c: &mut Counts) -> Outcome
    requires { (2 ≤ from) × (from ≤ 4) }
{
    let bytes = l.bytes();
    let message = part(&bytes, from, l.given);
    let wanted = part(&bytes, l.given, l.total);
    let side = l.numbers[from - 2];
    let room = l.numbers[from - 1];
    step::step(t, s, c, side, room, message, wanted)
}

// The batch of a line whose rooms begin at `from`, the length of the device's bytes and the bytes after them.
fn batch_of(l: &Line, from: usize, t: &Table, s: State, c: &mut Counts) -> Outcome
    requires { from ≤ 2 }
{
    let bytes = l.bytes();
    let middle = from + 3 + (l.numbers[from + 2] % 512) as usize;
    let device = part(&bytes, from + 3, middle);
    let host = part(&bytes, middle, l.given);
    let wanted = part(&bytes, l.given, l.total);
    let to_device = l.numbers[from];
    let to_host = l.numbers[from + 1];
    batch::batch(t, s, c, to_device, to_host, device, host, wanted)
}

// A conversation begins.
fn start(t: &Table, c: &mut Counts, setting: u64) -> Outcome {
    let begun = questions::fresh(t, (setting % 4294967296) as u32);
    let counts = begun.counts;
    *c = counts;
    Outcome {
        right: true,
        state: begun.state,
    }
}

// What comes of a line after one that ended in the state and the counts. A line with no step, batch or counts is right.
fn outcome(l: &Line, t: &Table, state: State, c: &mut Counts) -> Outcome {
    let own = step::state_of(l.numbers[0], l.numbers[1]);
    let Some(command) = command_of(l) else {
        return Outcome { right: true, state };
    };
    match command {
        Command::Begin => start(t, c, 200),
        Command::BeginWith => start(t, c, l.numbers[0]),
        Command::State => {
            *c = counts::of(t, &l.numbers);
            Outcome {
                right: true,
                state: own,
            }
        }
        Command::Counts => {
            let right = counts::are(t, c, l);
            Outcome { right, state }
        }
        Command::Step => step_of(l, 4, t, own, &mut counts::none()),
        Command::Batch => batch_of(l, 2, t, own, &mut counts::none()),
        Command::NextStep => step_of(l, 2, t, state, c),
        Command::NextBatch => batch_of(l, 0, t, state, c),
        Command::Table => Outcome { right: true, state },
    }
}

// A line's command; none where the standing of a batch is no code, for it cannot be a `Standing`.
fn command_of(l: &Line) -> Option<Command> {
    if l.command == Some(Command::Batch) && l.numbers[1] > 2 {
        return None;
    }
    l.command
}

// Every line of a file.
fn run(rt: &impl Print, s: &[u8]) -> io::Result<Tally> {
    let mut t = table::empty();
    let mut state = step::state_of(0, 0);
    let mut c = counts::none();
    let mut l = Line::new();
    let mut tally = Tally::new();
    for b in s {
        if *b != b'\n' {
            l.take(*b);
            continue;
        }
        l.end();
        let command = command_of(&l);
        if command == Some(Command::Table) {
            t = build(&l);
        }
        let r = outcome(&l, &t, state, &mut c);
        state = r.state;
        tally.count(command, r.right);
        if let Some(command) = command
            && !r.right
        {
            println!(rt; "wrong {command}: line {}", tally.lines)?;
        }
        l.clear();
    }
    Ok(tally)
}

// What a file came to.
fn report(rt: &(impl Files + Print), name: &str) -> io::Result<()> {
    let mut buf = [0u8; 65536];
    let n = files::load(rt, name, &mut buf);
    let tally = run(rt, &buf[..n])?;
    let Tally {
        steps,
        batches,
        counts,
        wrong,
        ..
    } = tally;
    println!(rt; "{name}: {steps} steps, {batches} batches, {counts} counts, {wrong} wrong")
}

fn main(rt: HostRuntime) -> io::Result<()> {
    for name in ["monitor", "batches", "counts", "editions"] {
        report(&rt, name)?;
    }
    Ok(())
}
