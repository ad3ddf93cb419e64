// Device and monitor together, document 01's machine, and the fit check that is said over it: definitions, their laws, and the claims over whole lists
// of moves. No code: the crate `fit` has it.
#![tactic(auto)]

// The fit check's answer: it fits, with the number of pairs met; or it fails, with the number of moves shown and the field that is
// high in the last of them.
#[derive(Clone, Copy, Debug, PartialEq, Eq)]
pub enum Fitting {
    Fits { pairs: u16 },
    Fails { moves: u16, high: Option<u8> },
}
