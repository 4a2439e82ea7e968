// The second line of an answer, what it says of each batch: docs/WEEKDESK.md, ‘The operations’.
ghost use Rattle.std.specs.Prelude.{ℕ, List, ◌≡◌, ◌+◌, ◌*◌, ◌≤◌, ◌++◌, length};
ghost use Rattle.text.specs.Line.{spaced};
ghost use Rattle.answer.specs.Line.{each_line, recipe_fields, stretch_fields, outcome_fields};
ghost use Rattle.answer.specs.Answer.{max_answer};
ghost use Rattle.answer.specs.Line.{recipe_width, stretch_width, outcome_width};

use crate::line::AnswerText;
use edf::outcome::Outcome;
use jobs::rule::Stretch;

// What is said of a batch: its fields, each after a space, and the width of the widest.
pub(crate) trait Fields: Copy {
    ghost fields: { Self → List (List ℕ) };

    ghost width: { ℕ };

    fn put_fields(self, text: &mut AnswerText)
        requires { length text.old + width ≤ max_answer }
        ensures fields { text.new ≡ text.old ++ spaced (fields self) }
        ensures narrow { length text.new ≤ length text.old + width };
}

// A recipe.
impl Fields for u8 {
    ghost fields = { recipe_fields };

    ghost width = { recipe_width };

    #[tactic(auto, using(crate::proofs::Widths::short))]
    fn put_fields(self, text: &mut AnswerText) {
        text.put_numbers(&[self]);
    }
}

// A stretch's start and end.
impl Fields for Stretch {
    ghost fields = { stretch_fields };

    ghost width = { stretch_width };

    #[tactic(auto, using(crate::proofs::Widths::short))]
    fn put_fields(self, text: &mut AnswerText) {
        text.put_numbers(&[self.start, self.end]);
    }
}

// `aside`, `finished M` or `unfinished M`.
impl Fields for Outcome {
    ghost fields = { outcome_fields };

    ghost width = { outcome_width };

    #[tactic(auto, using(crate::proofs::Widths::short), unfolding(crate::specs::Line::outcome_fields, text::specs::Line::spaced))]
    fn put_fields(self, text: &mut AnswerText) {
        match self {
            Outcome::SetAside => text.put(b" aside"),
            Outcome::Finished(minute) => text.put_named(b" finished", minute),
            Outcome::Unfinished(left) => text.put_named(b" unfinished", left),
        }
    }
}

// A word, and after it the fields of each batch, in list order.
#[tactic(auto, using(std::proofs::lemmas::Grind::common_steps, crate::proofs::Each::none_left, crate::proofs::Each::each_more))]
pub(crate) fn each_line<F: Fields>(text: &mut AnswerText, word: &[u8], batches: &[F])
    requires { length text.old + (length word.now + length batches.now * F.width + 1) ≤ max_answer }
    ensures { text.new ≡ text.old ++ each_line word.now F.fields batches.now }
{
    text.put(word);
    for batch in batches {
        batch.put_fields(text);
    }
    text.put(b"\n");
}
