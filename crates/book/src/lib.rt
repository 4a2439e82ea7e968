// The week book: document 02, One. It holds one week and its batches, and each call hands the book back beside its answer. None asks
// anything of its caller: a book can hold any list, and each call first refuses one that is not well formed. By Two, the list that it holds
// can stand in any order, and an accepted call hands it back in order.
#![tactic(auto)]

pub mod add;
pub mod book;
pub mod open;
pub mod plan;
pub mod withdraw;
