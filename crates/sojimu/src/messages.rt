// Messages: their questions, their label, and the message made from a branch.
#![tactic(auto, using(crate::proofs::laws::Announced::front_few))]

ghost use Rattle.std.specs.Prelude.{◌≡◌};
ghost use Rattle.message.specs.Message.{has_label, front_of, broken, refusal};
ghost use Rattle.message.specs.Make.{making};
ghost use Rattle.codes.specs.Codes.{head_codes, named_by, made_codes};

use codes::messages::{Head, Made};
use table::Table;

// 13 and 14 of bytes that may go on, and the length that is announced.
#[unsafe(no_mangle)]
pub extern "C" fn sojimu_raw_front(bytes: &[u8]) -> Head
    ensures { result ≡ head_codes (front_of bytes.now) }
{
    // by hand: that the length fits is known of this front alone
    match message::front(bytes) {
        Ok(length) => Head {
            question: 0,
            length: length as u32,
        },
        Err(question) => Head {
            question: u32::from(question),
            length: 0,
        },
    }
}

// Whether nothing that follows makes a message of these bytes.
#[unsafe(no_mangle)]
pub extern "C" fn sojimu_raw_broken(bytes: &[u8]) -> bool
    ensures { result ≡ broken bytes.now }
{
    message::broken(bytes)
}

// 13, 14, 15 and 22.
#[unsafe(no_mangle)]
pub extern "C" fn sojimu_raw_refusal(bytes: &[u8]) -> u32
    ensures { result ≡ refusal bytes.now }
{
    message::refusal(bytes).err().map_or(0, u32::from)
}

// Whether the bytes begin with a table's label.
#[unsafe(no_mangle)]
pub extern "C" fn sojimu_raw_has_label(bytes: &[u8], label: u64) -> bool
    ensures { result ≡ has_label bytes.now label }
{
    message::has_label(bytes, label)
}

// The message of a branch, all low or one named field high.
#[unsafe(no_mangle)]
pub extern "C" fn sojimu_raw_make(table: &Table, branch: u32, named: u32, out: &mut [u8]) -> Made
    ensures value { result ≡ made_codes (making table.now branch (named_by named) out.old).numbers }
    ensures out_after { out.new ≡ (making table.now branch (named_by named) out.old).buffer }
{
    let r = message::make(
        table,
        codes::messages::branch_of(branch),
        codes::messages::high_of(named),
        out,
    );
    Made::from(r)
}
