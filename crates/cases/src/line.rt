// One line of a file of cases: `COMMAND given = wanted # comment`. The command is one small letter. Given and wanted are numbers
// in hexadecimal, with capital letters; `20*5` is the number 0x20 five times, and a text in double quotes stands for its bytes.
ghost use Rattle.std.specs.Prelude.{◌≤◌};

use std::fmt;

// What a line asks for. The files have other letters, too, and lines without one.
#[derive(Clone, Copy, Debug, PartialEq, Eq)]
pub enum Command {
    Table,
    Begin,
    BeginWith,
    State,
    Counts,
    Step,
    NextStep,
    Batch,
    NextBatch,
}

// A letter that asks for nothing here.
#[derive(Clone, Copy, Debug, PartialEq, Eq)]
pub struct OtherLetter(pub u8);

impl TryFrom<u8> for Command {
    type Error = OtherLetter;

    fn try_from(letter: u8) -> Result<Command, OtherLetter> {
        match letter {
            b'j' => Ok(Command::Table),
            b'g' => Ok(Command::Begin),
            b'f' => Ok(Command::BeginWith),
            b'i' => Ok(Command::State),
            b'e' => Ok(Command::Counts),
            b's' => Ok(Command::Step),
            b'u' => Ok(Command::NextStep),
            b'b' => Ok(Command::Batch),
            b'c' => Ok(Command::NextBatch),
            _ => Err(OtherLetter(letter)),
        }
    }
}

// Its letter.
impl fmt::Display for Command {
    fn fmt<W: fmt::Write>(&self, f: &mut fmt::Formatter<W>) -> fmt::Result {
        f.write_str(match self {
            Command::Table => "j",
            Command::Begin => "g",
            Command::BeginWith => "f",
            Command::State => "i",
            Command::Counts => "e",
            Command::Step => "s",
            Command::NextStep => "u",
            Command::Batch => "b",
            Command::NextBatch => "c",
        })
    }
}

// What is being read.
#[derive(Clone, Copy, Debug, PartialEq, Eq)]
enum Mode {
    Between,
    Comment,
    Text,
    Number,
    // how often a number is repeated
    Times(u64),
}

// How far a line is read. What is beyond the room for its numbers is dropped: the first `given` of them are given, and those from there up
// to `total` wanted. Behind them stand those of the lines before it.
#[derive(Drop)]
pub struct Line {
    pub command: Option<Command>,
    pub numbers: [u64; 512],
    pub given: usize,
    pub total: usize,
    mode: Mode,
    value: u64,
    ghost within: { (given ≤ total) × (total ≤ 512) },
}

impl Line {
    pub fn new() -> Line {
        Line {
            command: None,
            numbers: [0; 512],
            given: 0,
            total: 0,
            mode: Mode::Between,
            value: 0,
        }
    }

    // The next line begins.
    pub fn clear(&mut self) {
        self.given = 0;
        self.total = 0;
        self.command = None;
        self.mode = Mode::Between;
        self.value = 0;
    }

    // One byte more.
    pub fn take(&mut self, b: u8) {
        match (self.mode, b) {
            (Mode::Comment, _) => {}
            (Mode::Text, b'"') => self.mode = Mode::Between,
            (Mode::Text, _) => self.put(u64::from(b), 1),
            (_, b'0'..=b'9') => self.digit(b - b'0'),
            (_, b'A'..=b'F') => self.digit(b - b'A' + 10),
            (_, b'*') => {
                self.mode = Mode::Times(self.value);
                self.value = 0;
            }
            _ => {
                self.end();
                self.mark(b);
            }
        }
    }

    // One digit more of the number that is being read.
    fn digit(&mut self, d: u8)
        requires { d ≤ 15 }
    {
        self.value = self.value % 0x1000_0000_0000_0000 * 16 + u64::from(d);
        if self.mode == Mode::Between {
            self.mode = Mode::Number;
        }
    }

    fn mark(&mut self, b: u8) {
        match b {
            b'#' => self.mode = Mode::Comment,
            b'"' => self.mode = Mode::Text,
            b'=' => self.given = self.total,
            b'a'..=b'z' => self.command = Command::try_from(b).ok(),
            _ => {}
        }
    }

    // A number that is being read is over.
    pub fn end(&mut self) {
        match self.mode {
            Mode::Number => self.put(self.value, 1),
            Mode::Times(repeated) => self.put(repeated, self.value),
            _ => {}
        }
        self.mode = Mode::Between;
        self.value = 0;
    }

    // A number more, as often as is said, as far as there is room.
    fn put(&mut self, value: u64, times: u64) {
        let room = &mut self.numbers[self.total..];
        let count = room.len().min(times as usize);
        room[..count].fill(value);
        self.total += count;
    }

    // Of each number its lowest byte. In a step or a batch only a room is above 0xFF.
    pub fn bytes(&self) -> [u8; 512] {
        let mut bytes = [0; 512];
        for (byte, number) in bytes.iter_mut().zip(&self.numbers) {
            *byte = (*number % 256) as u8;
        }
        bytes
    }
}
