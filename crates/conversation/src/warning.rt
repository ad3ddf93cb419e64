use table::Party;

// Whether a branch warns, the sender of its choice, and the estimate in thousandths, if anything is counted.
#[derive(Clone, Copy, Debug, PartialEq, Eq)]
pub struct Notice {
    pub warns: bool,
    pub sender: Party,
    pub estimate: Option<u32>,
}
