// From lines that are frames to the list that they hold.
ghost use Rattle.std.specs.Prelude.{◌≡◌, ◌+◌, ◌*◌, ◌<◌, length, Some};
ghost use Rattle.sheet.specs.declared.frame.Frame.TheVariants as frame;
ghost use Rattle.sheet.specs.Line.{lines_of};
ghost use Rattle.sheet.specs.Frame.{frame_of};
ghost use Rattle.sheet.specs.Fault.{lines_fault};
ghost use Rattle.sheet.specs.List.{recipe_from, batch_from, sheet_week};

use crate::hex::{byte_at, word_at};
use crate::line::ends_line;
use week::record::{Batch, Recipe, Week};

// The recipe of index k, on a batch's line.
fn recipe_of(line: &[u8], k: usize) -> Recipe
    requires { 2 * (10 + 4 * k) + 3 < length line.now }
    ensures { result ≡ recipe_from line.now k }
{
    Recipe {
        cost: word_at(line, 8 + 4 * k),
        worth: word_at(line, 10 + 4 * k),
    }
}

// The batch of a line; recipes after the tenth are counted and not stored.
#[tactic(auto, using(crate::proofs::Frames::batch_length))]
fn batch_of(line: &[u8]) -> Batch
    requires { frame_of line.now ≡ Some frame.Batch }
    ensures { result ≡ batch_from line.now }
{
    let count = usize::from(byte_at(line, 7));
    Batch {
        number: word_at(line, 1),
        arrival: word_at(line, 3),
        due: word_at(line, 5),
        count,
        recipes: Batch::stored(count, |k| recipe_of(line, k)),
    }
}

// The list of a sheet; batches after the sixteenth are counted and not stored.
pub(crate) fn week_of(sheet: &[u8]) -> Week
    requires { (lines_fault (lines_of sheet.now)).number ≡ 0 }
    ensures { result ≡ sheet_week sheet.now }
{
    let mut lines = sheet.split_inclusive(ends_line);
    let first = lines.next().unwrap();
    let mut batches = [Batch::empty(); Week::MAX_BATCHES];
    let mut count = 0;
    // Stored by number: after a `zip` with what is written a proof knows none of its entries.
    for (place, line) in lines.enumerate() {
        if place < Week::MAX_BATCHES {
            batches[place] = batch_of(line);
        }
        count = place + 1;
    }
    Week {
        opening: word_at(first, 1),
        closing: word_at(first, 3),
        count,
        batches,
    }
}
