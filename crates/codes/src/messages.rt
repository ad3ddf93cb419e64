// The front of a message and a made message, as codes; the branch and the field that a code names.
#![tactic(auto, unfolding(message::specs::Make::high_of, message::specs::Make::made_numbers))]

ghost use Rattle.std.specs.Prelude.{◌≡◌};
ghost use Rattle.message.specs.Make.{high_of, made_numbers};
ghost use Rattle.codes.specs.Codes.{named_by, made_codes};
ghost use Rattle.codes.specs.inner.Wide.{SameBranch, SameField};

use table::Question;

// What the front of some bytes tells: the number of the question that got a no, or 0, and the length that is announced.
#[repr(C)]
#[derive(Clone, Copy)]
pub struct Head {
    pub question: u32,
    pub length: u32,
}

// What making a message gives: the number of the question that got a no, or 0, and the message's length.
#[repr(C)]
#[derive(Clone, Copy)]
pub struct Made {
    pub question: u32,
    pub length: u32,
}

// A number that no branch has stands for every such number, which `make` refuses alike: so no `Option`.
pub fn branch_of(branch: u32) -> u16
    ensures { SameBranch result branch }
{
    match u16::try_from(branch) {
        Ok(branch) => branch,
        Err(_) => 65535,
    }
}

// 255 names no field. A number that no field has stands for every such number.
pub fn high_of(named: u32) -> Option<u8>
    ensures { SameField (high_of result) (named_by named) }
{
    match u8::try_from(named) {
        Ok(255) => None,
        Ok(field) => Some(field),
        Err(_) => Some(254),
    }
}

impl From<Result<u16, Question>> for Made {
    ghost from_gives = { λ made codes. codes ≡ made_codes (made_numbers made) };

    fn from(made: Result<u16, Question>) -> Made {
        match made {
            Ok(length) => Made {
                question: 0,
                length: u32::from(length),
            },
            Err(question) => Made {
                question: u32::from(question),
                length: 0,
            },
        }
    }
}
