// The week planner's operations over a week's list.
#![tactic(auto)]

pub mod check;
pub mod choose;
pub mod job;
pub mod own_memory;
pub mod run;
