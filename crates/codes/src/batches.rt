// A batch: what is passed and the last answer, as codes, and the state's two bytes.
#![tactic(auto, unfolding(conversation::specs::Batch::last_of, crate::specs::Calls::stand_for, crate::specs::Calls::bytes_for, crate::specs::inner::Parts::passed_codes))]

ghost use Rattle.std.specs.Prelude.{◌≡◌};
ghost use Rattle.conversation.specs.Batch.{last_of};
ghost use Rattle.codes.specs.Codes.{last_codes};
ghost use Rattle.codes.specs.Calls.{stand_for, bytes_for};
ghost use Rattle.codes.specs.inner.Parts.{passed_codes};

use super::steps;
use super::steps::Verdict;
use conversation::batch::Passed;

// Bytes used of what waits on each side, bytes written on each output, and the last answer. Its outcome is 3 where none was due.
#[repr(C)]
#[derive(Clone, Copy)]
pub struct Batch {
    pub used_device: usize,
    pub used_host: usize,
    pub written_to_device: usize,
    pub written_to_host: usize,
    pub last: Verdict,
    pub reserved: [u8; 3],
}

impl From<Passed> for Batch {
    ghost from_gives = { λ passed codes. codes ≡ passed_codes passed };

    fn from(passed: Passed) -> Batch {
        let Passed { device, host, last } = passed;
        let last = Verdict::from(last);
        Batch {
            used_device: device.used,
            used_host: host.used,
            written_to_device: host.written,
            written_to_host: device.written,
            last,
            reserved: [0; 3],
        }
    }
}

impl From<Option<conversation::Verdict>> for Verdict {
    ghost from_gives = { λ last codes. codes ≡ last_codes (last_of last) };

    fn from(last: Option<conversation::Verdict>) -> Verdict {
        match last {
            Some(verdict) => Verdict::from(verdict),
            None => Verdict {
                outcome: 3,
                question: 0,
                party: 0,
                reason: 0,
                field: 0,
            },
        }
    }
}

// Two bytes that stand for the state already are left as they were.
pub fn renew(state: &mut [u8; 2], s: conversation::State)
    ensures { state.new ≡ bytes_for s state.old }
{
    if !stand_for(state[0], state[1], s) {
        steps::put(state, s);
    }
}

fn stand_for(position: u8, standing: u8, s: conversation::State) -> bool
    ensures { result ≡ stand_for position standing s }
{
    steps::state_of(position, standing) == s
}
