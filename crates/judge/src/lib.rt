// What refuses a batch, a list and a choice.
#![tactic(auto)]

mod batch_fault;
pub mod fault;
