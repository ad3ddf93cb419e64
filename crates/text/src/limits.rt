// The limits that reading asks about (questions 1, 8, 19 and 23).

// The bytes of a text.
pub const BYTES: usize = 8192;

pub const STATES: u32 = 32;

pub const BRANCHES: u32 = 128;

// The fields of a branch.
pub const FIELDS: u32 = 4;

// The choices and `rec`s that are open around one another.
pub const OPEN: usize = 16;

// The highest share, and the highest edition.
pub const SHARE: u32 = 1000;

pub const EDITION: u32 = 2;
