// Lines of a text.
ghost use Rattle.std.specs.Prelude.{◌≡◌, ◌+◌, ◌≤◌, ◌++◌, map, length};
ghost use Rattle.week.specs.Fault.{numbers};
ghost use Rattle.text.specs.Decimal.{decimal};
ghost use Rattle.text.specs.Line.{rest_of, week_line, refusal_line, counts, week_width, refusal_width, counts_width};

use crate::number::Number;
use crate::put::Text;
use week::refusal::{Fault, Refusal};

// The widest line of a week, its line feed counted: `week 65535 65535`.
pub const WEEK_WIDTH: usize = 17;

impl<const N: usize> Text<N> {
    // What follows the first field of a line: numbers, and the line feed.
    pub fn rest<I: Number>(&mut self, numbers: &[I])
        requires { length self.old + length (rest_of (map (λ n. decimal (I.value n)) numbers.now)) ≤ N }
        ensures { self.new ≡ self.old ++ rest_of (map (λ n. decimal (I.value n)) numbers.now) }
    {
        self.put_numbers(numbers);
        self.put(b"\n");
    }

    // A week's minutes. Document 01: "Line 1 is t and c."
    #[tactic(auto, unfolding(crate::specs::Line::week_line))]
    pub fn week_line(&mut self, opening: u16, closing: u16)
        requires { length self.old + week_width ≤ N }
        ensures line { self.new ≡ self.old ++ week_line opening closing }
        ensures width { length self.new ≤ length self.old + week_width }
    {
        self.put(b"week");
        self.rest(&[opening, closing]);
    }

    // The one line of a refusal. Document 01: "A refusal writes one line only, "refused" and its three numbers".
    #[tactic(auto, unfolding(crate::specs::Line::refusal_line))]
    pub fn refusal_line(&mut self, refusal: Refusal)
        requires { length self.old + refusal_width ≤ N }
        ensures { self.new ≡ self.old ++ refusal_line refusal }
    {
        self.put(b"refused");
        self.rest(&[usize::from(refusal.number), refusal.place, refusal.recipe]);
    }

    // What is answered of a refusal: its line, and nothing else.
    pub fn of_refusal(refusal: Refusal) -> Self
        requires { refusal_width ≤ N }
        ensures { result ≡ refusal_line refusal }
    {
        let mut text = Text::new();
        text.refusal_line(refusal);
        text
    }

    // The same of what refuses in the code.
    pub fn refused(fault: Fault) -> Self
        requires { refusal_width ≤ N }
        ensures { result ≡ refusal_line (numbers fault) }
    {
        Text::of_refusal(fault.into())
    }

    // What a line of a run ends with, as " changes 4 idle 10". Two numbers, since a run, which has both, is not known here.
    pub fn counts(&mut self, changes: u16, idle: u16)
        requires { length self.old + counts_width ≤ N }
        ensures counts { self.new ≡ self.old ++ rest_of (counts changes idle) }
        ensures width { length self.new ≤ length self.old + counts_width }
    {
        self.put_named(b" changes", changes);
        self.put(b" idle");
        self.rest(&[idle]);
    }
}
