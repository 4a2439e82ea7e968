// The lines that a plan, a check and a run begin with, and how long an answer is.
ghost use Rattle.std.specs.Prelude.{◌≡◌, ◌+◌, ◌≤◌, ◌++◌, length};
ghost use Rattle.answer.specs.Line.{total_line, ran_line, total_width, ran_width};
ghost use Rattle.answer.specs.Answer.{max_answer};

use text::Text;
use week::record::Week;

// The widest first line: `ran changes 65535 idle 65535`, its line feed counted.
const RAN_WIDTH: usize = 29;

// The widest of a batch's fields, with the spaces before them: ` unfinished 65535`.
const OUTCOME_WIDTH: usize = 17;

// The widest second line, its line feed counted: `outcomes`, and sixteen batches that are unfinished.
const BATCHES_WIDTH: usize = 9 + Week::MAX_BATCHES * OUTCOME_WIDTH;

// The longest answer: that of a run.
pub const MAX_ANSWER: usize = RAN_WIDTH + BATCHES_WIDTH;

pub type AnswerText = Text<MAX_ANSWER>;

// `plan TOTAL`, `passed TOTAL`: a word of at most six bytes, and a total.
#[tactic(auto, using(crate::proofs::Widths::short), unfolding(crate::specs::Line::total_line))]
pub(crate) fn total_line(text: &mut AnswerText, word: &[u8], total: u32)
    requires { (length word.now ≤ 6) × (length text.old + total_width ≤ max_answer) }
    ensures line { text.new ≡ text.old ++ total_line word.now total }
    ensures width { length text.new ≤ length text.old + total_width }
{
    text.put(word);
    text.rest(&[total]);
}

// `ran changes N idle N`
#[tactic(auto, unfolding(crate::specs::Line::ran_line))]
pub(crate) fn ran_line(text: &mut AnswerText, changes: u16, idle: u16)
    requires { length text.old + ran_width ≤ max_answer }
    ensures line { text.new ≡ text.old ++ ran_line changes idle }
    ensures width { length text.new ≤ length text.old + ran_width }
{
    text.put(b"ran");
    text.counts(changes, idle);
}
