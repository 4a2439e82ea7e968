// Reading a sheet: a list that passed refusals 1 to 9, in order, or the first refusal of document 01's order.
ghost use Rattle.std.specs.Prelude.{◌≡◌};
ghost use Rattle.sheet.specs.Read.{answer_of, read_answer};

use crate::fault::lines_fault;
use crate::list::week_of;
use judge::fault::accept_list;
use week::record::Week;
use week::refusal::{Fault, Reason};

// The longest sheet that is read.
pub const MAX_BYTES: usize = 4096;

// Document 01: "Read a sheet, answering a list that passed 1 to 10."; document 02: "Sheets may come in any order as well." The answer on
// every sequence of bytes.
#[tactic(auto, using(crate::proofs::Reading::large_refused))]
pub fn read(sheet: &[u8]) -> Result<Week, Fault>
    ensures { answer_of result ≡ read_answer sheet.now }
{
    if MAX_BYTES < sheet.len() {
        return Err(Fault::of(Reason::LongSheet));
    }
    lines_fault(sheet)?;
    accept_list(week_of(sheet))
}
