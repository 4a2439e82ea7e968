// Lists lent as records: document 02, Two. Over the planner's contracts; the records are put in order where they lie.
#![tactic(auto)]

pub mod choose;
mod list;
