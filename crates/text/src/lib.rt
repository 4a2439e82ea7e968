// Text in fixed memory: bytes and numbers put into it one after the other, and the lines that a report and an answer share.
#![tactic(auto)]

pub mod fixed;
pub mod line;
pub mod number;
pub mod put;

pub use fixed::Bytes;
pub use number::Number;
pub use put::Text;
