// The report as it is written: words, numbers and lines, one behind the other.
ghost use Rattle.std.specs.Prelude.{◌≡◌, ℕ, ◌+◌, ◌≤◌, cond, List, [], ◌++◌, ◌==◌, length, take};
ghost use Rattle.std.specs.List.{position};
ghost use Rattle.std.proofs.Math.Option.{none};
ghost use Rattle.table.specs.Ascii.{ascii, decimal, letters};
ghost use Rattle.table.specs.View.{label_of};
ghost use Rattle.message.specs.Make.{high_of};
ghost use Rattle.machine.specs.Machine.{device_blamed, jammed};
ghost use Rattle.report.specs.Report as R;
ghost use Rattle.report.specs.inner.Lines.{Room, refusal_line, label_line};

use std::marker::Model;
use table::Party;

// The bytes of a report, as many as are written. 16,384 bytes hold every report.
#[derive(Drop)]
pub struct Report {
    buffer: [u8; 16384],
    len: usize,
}

impl Model for Report {
    ghost Value = { List ℕ };

    ghost view = { λ r. take r.len r.buffer };

    ghost invariant = { λ r. r.len ≤ 16384 };
}

// No `fmt::Write`: its `write!` promises the text only where the answer is Ok, and no clause of it says that it is.
impl Report {
    pub fn new() -> Report
        ensures { result ≡ [] }
    {
        Report {
            buffer: [0; 16384],
            len: 0,
        }
    }

    pub fn bytes(&self) -> &[u8]
        ensures whole { result.now ≡ self.now }
        ensures most { length self.now ≤ 16384 }
    {
        &self.buffer[..self.len]
    }

    // Bytes as they are.
    fn word(&mut self, bytes: &[u8])
        requires { Room self.old (length bytes.now) }
        ensures { self.new ≡ self.old ++ bytes.now }
    {
        let end = self.len + bytes.len();
        self.buffer[self.len..end].copy_from_slice(bytes);
        self.len = end;
    }

    // A number's decimal digits.
    fn number(&mut self, n: u16)
        requires { Room self.old (length (decimal n)) }
        ensures { self.new ≡ self.old ++ decimal n }
    {
        if 10 <= n {
            self.number(n / 10);
        }
        self.word(&[b'0' + (n % 10) as u8]);
    }

    // A label's letters, of its word: up to the first 0x00.
    fn letters(&mut self, label: u64)
        requires { Room self.old (length (letters (label_of label))) }
        ensures { self.new ≡ self.old ++ letters (label_of label) }
    {
        let bytes = label.to_be_bytes();
        let n = first_zero(&bytes).unwrap_or(8);
        self.word(&bytes[..n]);
    }

    // A word and a number.
    fn numbered(&mut self, bytes: &[u8], n: u16)
        requires { Room self.old (length bytes.now + length (decimal n)) }
        ensures { self.new ≡ self.old ++ (bytes.now ++ decimal n) }
    {
        self.word(bytes);
        self.number(n);
    }

    // `protocol refused 3 at 0`: whose text, the question, its place.
    pub fn refused(&mut self, whose: &[u8], question: u16, place: u16)
        requires { Room self.old (length whose.now + 24) }
        ensures { self.new ≡ self.old ++ refusal_line whose.now question place }
    {
        self.word(whose);
        self.numbered(b" refused ", question);
        self.numbered(b" at ", place);
        self.word(b"\n");
    }

    // A line of a word and a number, as `fit 2`.
    pub fn counted(&mut self, bytes: &[u8], n: u16)
        requires { Room self.old (length bytes.now + 6) }
        ensures { self.new ≡ self.old ++ R.line (bytes.now ++ decimal n) }
    {
        self.numbered(bytes, n);
        self.word(b"\n");
    }

    // A move's line.
    pub fn move_line(&mut self, side: Party, label: u64, high: Option<u8>)
        requires { Room self.old 24 }
        ensures written { self.new ≡ self.old ++ label_line side label high }
        ensures most { length self.new ≤ length self.old + 24 }
        ensures most_low { high_of high ≡ none → length self.new ≤ length self.old + 13 }
    {
        self.word(direction(side));
        self.letters(label);
        if let Some(field) = high {
            self.numbered(b" high ", u16::from(field));
        }
        self.word(b"\n");
    }

    // The last line.
    #[tactic(auto, unfolding(crate::specs::Report::line, crate::specs::Report::ending))]
    pub fn ending(&mut self, blamed: bool)
        requires { Room self.old 7 }
        ensures { self.new ≡ self.old ++ cond blamed (R.ending device_blamed) (R.ending jammed) }
    {
        if blamed {
            self.word(b"blamed\n");
        } else {
            self.word(b"jammed\n");
        }
    }
}

fn first_zero(bytes: &[u8; 8]) -> Option<usize>
    ensures { result ≡ position (λ b. b == 0) bytes.now }
{
    bytes.iter().position(|b| *b == 0)
}

// Which way a move goes.
#[tactic(auto, unfolding(crate::specs::Report::direction))]
fn direction(side: Party) -> &'static [u8]
    ensures { result.now ≡ R.direction side }
{
    match side {
        Party::Device => b"in ",
        Party::Host => b"out ",
    }
}
