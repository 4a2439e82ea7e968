// What a line is.
ghost use Rattle.std.specs.Prelude.{◌≡◌};
ghost use Rattle.sheet.specs.Frame.{byte_of, is_week, is_batch, frame_of};

use crate::hex::byte_at;
use crate::line::is_hex_line;

// Each has its byte in document 01, "The sheet".
#[derive(Clone, Copy, Debug, PartialEq, Eq)]
pub enum Frame {
    Week = 1,
    Batch = 2,
}

impl Frame {
    // The byte that its line begins with, which a cast alone gives.
    pub fn byte(self) -> u8
        ensures { result ≡ byte_of self }
    {
        self as u8
    }
}

// The length of a week's line, of a batch's line without recipes, and of each recipe on it, line feeds counted.
pub const WEEK_LENGTH: usize = 11;

pub const BATCH_LENGTH: usize = 17;

pub const RECIPE_LENGTH: usize = 8;

// Document 01: "Week: 01, t, c."
#[tactic(auto, unfolding(crate::specs::Frame::is_week))]
fn is_week(line: &[u8]) -> bool
    ensures { result ≡ is_week line.now }
{
    line.len() == WEEK_LENGTH && byte_at(line, 0) == Frame::Week.byte()
}

// Document 01: "Batch: 02, number, r, d, one byte with the count of recipes, then cost and worth for each. The length must agree
// with the count."
#[tactic(auto, unfolding(crate::specs::Frame::is_batch))]
fn is_batch(line: &[u8]) -> bool
    ensures { result ≡ is_batch line.now }
{
    if line.len() < BATCH_LENGTH || byte_at(line, 0) != Frame::Batch.byte() {
        return false;
    }
    let count = usize::from(byte_at(line, 7));
    line.len() == BATCH_LENGTH + RECIPE_LENGTH * count
}

#[tactic(auto, unfolding(crate::specs::Frame::frame_of))]
pub(crate) fn frame_of(line: &[u8]) -> Option<Frame>
    ensures { result ≡ frame_of line.now }
{
    if !is_hex_line(line) {
        return None;
    }
    if is_week(line) {
        return Some(Frame::Week);
    }
    if is_batch(line) {
        return Some(Frame::Batch);
    }
    None
}
