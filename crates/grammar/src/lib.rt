// What a text is: tokens, the grammar, the table that a text means, and reading it token by token with its questions. Definitions and their laws. No
// code: the crate `text` has it.
#![tactic(auto)]

use table::Table;

// What reading gives: question 0, `at` 0 and the text's table; or the number of the question that got a no, the place of its token, and the
// empty table. No `Result`: C reads it as it is.
#[repr(C)]
#[derive(Drop)]
pub struct Reading {
    pub question: u32,
    pub at: u32,
    pub table: Table,
}
