// Memory that is lent to an operation, a picks table or a log: filled with one value before, and shown after.
#![tactic(auto)]

pub mod fill;
pub mod shown;

// The longest table and the longest log that can be lent.
pub const MAX_TABLE: usize = 40000;

pub const MAX_LOG: usize = 4000;
