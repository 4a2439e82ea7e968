// Refusals 16 and 17, line by line.
ghost use Rattle.std.specs.Prelude.{◌≡◌};
ghost use Rattle.week.specs.Fault.{refusal_of};
ghost use Rattle.sheet.specs.Line.{lines_of};
ghost use Rattle.sheet.specs.Fault.{frame_fault, lines_fault};

use crate::frame::{Frame, frame_of};
use crate::line::ends_line;
use week::refusal::{Fault, Reason};

// 16 and 17 of the line at a place, from 1: a week stands first, and nowhere else.
#[tactic(auto, unfolding(crate::specs::Fault::frame_fault, week::specs::Refusal::refused_if))]
fn frame_fault(place: usize, frame: Option<Frame>) -> Result<(), Fault>
    ensures { refusal_of result ≡ frame_fault place frame }
{
    match frame {
        Some(Frame::Week) if place == 1 => Ok(()),
        Some(Frame::Batch) if place != 1 => Ok(()),
        Some(_) => Err(Fault::of(Reason::MisplacedFrame).in_place(place)),
        None => Err(Fault::of(Reason::NoFrame).in_place(place)),
    }
}

// Of a whole sheet.
#[tactic(auto, using(crate::proofs::LinesFault::fault_empty))]
pub(crate) fn lines_fault(sheet: &[u8]) -> Result<(), Fault>
    ensures { refusal_of result ≡ lines_fault (lines_of sheet.now) }
{
    if sheet.is_empty() {
        return Err(Fault::of(Reason::MisplacedFrame).in_place(1));
    }
    for (i, line) in sheet.split_inclusive(ends_line).enumerate() {
        frame_fault(i + 1, frame_of(line))?;
    }
    Ok(())
}
