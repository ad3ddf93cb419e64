// The codes that cross to C and Rust: the structs, each with the definition of what its numbers stand for (specs/Codes), and the conversions, which
// ask for nothing. They are structs of numbers, and no Results, for C reads them as they are. What the calls over codes do is in specs/Calls; the calls themselves are the crate `sojimu`.
#![tactic(auto)]

pub mod batches;
pub mod fits;
pub mod messages;
pub mod steps;
pub mod warnings;
