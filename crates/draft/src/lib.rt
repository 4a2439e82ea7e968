// A list as it is written down, before anything judges it: the week that it hands in, and the texts that it is printed as.
#![tactic(auto)]

pub mod frames;
mod hex;
pub mod list;
pub mod record;
