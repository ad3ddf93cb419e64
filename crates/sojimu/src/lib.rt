// The exports for C and Rust (include/sojimu.h): every call of the crates below over numbers, slices and tables that are lent.
// Enums cross as codes, by the definitions of the crate `codes`. No call has a precondition or keeps anything between calls. A
// refusal changes nothing that was lent. A number that is too large for what it names is refused, and never narrowed.
#![tactic(auto)]

ghost use Rattle.std.specs.Prelude.{◌≡◌};

mod batches;
mod fits;
mod messages;
mod steps;
mod tables;
mod texts;
mod warnings;

// The header's number (SOJIMU_VERSION): raised whenever a struct or a call changes.
const VERSION: u32 = 6;

#[unsafe(no_mangle)]
pub extern "C" fn sojimu_version() -> u32
    ensures { result ≡ 6 }
{
    VERSION
}

// The same number, by a name that carries it: header and wrapper refer to it, so that what is written for another version does not link.
#[unsafe(no_mangle)]
pub extern "C" fn sojimu_abi_6() -> u32
    ensures { result ≡ 6 }
{
    VERSION
}
