// The sheet: lines of hexadecimal, the frames that they are, and the list that they hold.
#![tactic(auto)]

mod fault;
pub mod frame;
mod hex;
mod line;
mod list;
pub mod read;
