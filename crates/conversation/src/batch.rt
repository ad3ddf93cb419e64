use super::{State, Verdict};

// How many of one side's waiting bytes are used, and how many bytes are written on the other side's output.
#[derive(Clone, Copy)]
pub struct Lane {
    pub used: usize,
    pub written: usize,
}

// The device's messages go to the host's output, the host's to the device's. The last answer is that of the last step that was tried,
// or 9's or 10's no; there is none where no message was due.
#[derive(Clone, Copy)]
pub struct Passed {
    pub device: Lane,
    pub host: Lane,
    pub last: Option<Verdict>,
}

#[derive(Clone, Copy)]
pub struct Batched {
    pub state: State,
    pub passed: Passed,
}
