// The dynamic programme: a table of picks is filled row by row, and the best choice for any close is read off it.
#![tactic(auto)]

pub mod choice;
mod offer;
mod row;
pub mod table;
mod word;
