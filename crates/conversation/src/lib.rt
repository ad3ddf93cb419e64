// Conversations: their state, the verdicts and the counts, with the definitions of what a step, a batch, the due part and a warning come to, their laws, and the
// claims over whole conversations: demand 2, early messages, batches and counts. No code: the crates `questions` and `monitor` have it.
#![tactic(auto)]

use table::{Party, Question};

pub mod batch;
pub mod warning;

#[derive(Clone, Copy, Debug, PartialEq, Eq)]
pub enum Standing {
    Running,
    DeviceBlamed,
    HostBlamed,
}

// A conversation's state. The gateway keeps one for each.
#[derive(Clone, Copy, Debug, PartialEq, Eq)]
pub struct State {
    pub position: u8,
    pub standing: Standing,
}

// Why a sender is blamed. Fields count from 0. A message is early that comes out of turn under edition 2.
#[derive(Clone, Copy, Debug, PartialEq, Eq)]
pub enum Reason {
    NoLabel,
    OtherKinds,
    OutOfRange(u8),
    Early,
}

// A refusal says which question got a no.
#[derive(Clone, Copy, Debug, PartialEq, Eq)]
pub enum Verdict {
    Refused(Question),
    Blamed(Party, Reason),
    Forwarded,
}

// What a conversation is started with: its state; or 9 or 21 refuses, and every call refuses the state by 9. No `Result`: `starting` gives a
// state then, too.
#[derive(Drop)]
pub struct Started {
    pub refused: Option<Question>,
    pub state: State,
    pub counts: Counts,
}

#[derive(Clone, Copy)]
pub struct Stepped {
    pub state: State,
    pub verdict: Verdict,
}

// The counts of a conversation, which are part of its state and are lent: the setting z, n of each of 32 states, k of each of 128
// branches.
pub type Counts = [u16; 161];

pub const SETTING: usize = 0;

pub const CHOSEN: usize = 1;

pub const TAKEN: usize = 33;

// The most that n rises to.
pub const MOST: u16 = 10000;
