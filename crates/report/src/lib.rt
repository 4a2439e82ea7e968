// What the desk's program writes for a sheet: its plan, or the refusal, as text.
#![tactic(auto)]

pub mod line;
mod plan;

ghost use Rattle.std.specs.Prelude.{◌≡◌};
ghost use Rattle.report.specs.Contract.{text_of};
ghost use Rattle.report.specs.Report.{report_of};

use crate::line::MAX_TEXT;
use crate::plan::week_text;
use sheet::read::read;
use text::Text;
use week::refusal::Fault;

// All lines of the plan of a sheet's list, or what refuses it.
fn sheet_text(sheet: &[u8]) -> Result<Text<MAX_TEXT>, Fault>
    ensures { text_of result ≡ report_of sheet.now }
{
    let week = read(sheet)?;
    week_text(week)
}

// Document 01, "The sheet": "It writes the whole of". The answer on every input; demand 1, "A refused call alters no memory it was
// lent": it is lent none to write.
pub fn report(sheet: &[u8]) -> Text<MAX_TEXT>
    ensures { result ≡ report_of sheet.now }
{
    sheet_text(sheet).unwrap_or_else(Text::refused)
}
