// The lines of a report.
ghost use Rattle.std.specs.Prelude.{◌≡◌, ◌+◌, ◌≤◌, ◌++◌, length};
ghost use Rattle.report.specs.Line.{total_line, batch_line, total_width, batch_width, max_text};

use text::Text;
use text::line::WEEK_WIDTH;
use week::record::Week;

// The widest line of each kind, its line feed counted: `total 4294967295 changes 65535 idle 65535`, and six numbers of five digits.
const TOTAL_WIDTH: usize = 42;

const BATCH_WIDTH: usize = 36;

// The longest text.
pub const MAX_TEXT: usize = WEEK_WIDTH + TOTAL_WIDTH + Week::MAX_BATCHES * BATCH_WIDTH;

// What the line of a batch says. Document 01: "A batch line is number, recipe, cost as it counts in the rule, start and end of
// stretch, finish (0 if set aside)."
#[derive(Clone, Copy, Debug, PartialEq, Eq)]
pub(crate) struct BatchLine {
    pub number: u16,
    pub recipe: u8,
    pub cost: u16,
    pub start: u16,
    pub end: u16,
    pub finish: u16,
}

// The second line, as "total 22 changes 4 idle 10".
#[tactic(auto, using(text::proofs::Decimals::widths), unfolding(crate::specs::Line::total_line, text::specs::Line::spaced))]
pub(crate) fn total_line(text: &mut Text<MAX_TEXT>, total: u32, changes: u16, idle: u16)
    requires { length text.old + total_width ≤ max_text }
    ensures line { text.new ≡ text.old ++ total_line total changes idle }
    ensures width { length text.new ≤ length text.old + total_width }
{
    text.put_named(b"total", total);
    text.counts(changes, idle);
}

// A batch's line, as "7 2 10 10 20 10".
#[tactic(auto, using(text::proofs::Decimals::widths, crate::proofs::BatchLines::others_short), unfolding(crate::specs::Line::batch_line))]
pub(crate) fn batch_line(text: &mut Text<MAX_TEXT>, line: BatchLine)
    requires { length text.old + batch_width ≤ max_text }
    ensures line { text.new ≡ text.old ++ batch_line line }
    ensures width { length text.new ≤ length text.old + batch_width }
{
    let recipe = u16::from(line.recipe);
    text.put_decimal(line.number);
    text.rest(&[recipe, line.cost, line.start, line.end, line.finish]);
}
