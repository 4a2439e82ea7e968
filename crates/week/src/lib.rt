// What the desk hands in, a week's list of batches, their order and lists written from them, and what a refusal is.
#![tactic(auto)]

pub mod number;
pub mod order;
pub mod record;
pub mod refusal;
pub mod written;
