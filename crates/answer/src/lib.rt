// What weekdesk answers where an operation is asked, and where a line is no command.
#![tactic(auto)]

mod fields;
pub mod line;
pub mod operation;
