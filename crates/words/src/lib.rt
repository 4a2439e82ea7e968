// A line as words: lines that come in pieces, the words of a line, and the numbers that words are.
#![tactic(auto)]

pub mod line;
pub mod number;
pub mod numbers;
mod place;
pub mod word;
