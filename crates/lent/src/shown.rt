// The bytes of a table or a log as text, in runs: docs/WEEKDESK.md, ‘The operations’.
ghost use Rattle.std.specs.Prelude.{◌≡◌, ◌∷◌, ◌++◌, ◌+◌, ◌≤◌, length};
ghost use Rattle.arrays.specs.Text.{space};
ghost use Rattle.lent.specs.Shown.{run_of, run_field, shown_rest};

use crate::MAX_TABLE;
use text::Text;

// The longest text: each byte a run of its own, as ` 255x1`, and the line feed. A longer run has a byte more for each digit of its
// count, and stands for as many bytes.
pub const MAX_SHOWN: usize = 6 * MAX_TABLE + 1;

// A run, as ` 2x20`.
#[tactic(auto, unfolding(crate::specs::Shown::run_field))]
fn put_run(text: &mut Text<MAX_SHOWN>, value: u8, count: usize)
    requires { length text.old + length (space ∷ run_field (run_of value count)) ≤ MAX_SHOWN }
    ensures { text.new ≡ text.old ++ (space ∷ run_field (run_of value count)) }
{
    text.put(b" ");
    text.put_decimal(value);
    text.put(b"x");
    text.put_decimal(count);
}

// ‘every byte lent, in runs: `0x10 2x20 1x71` is ten 0s, twenty 2s, seventy-one 1s’: what follows the word. The answer on every slice;
// of one that is longer than can be lent, on as many bytes as can.
pub fn shown_text(lent: &[u8]) -> Text<MAX_SHOWN>
    ensures { result ≡ shown_rest lent.now }
{
    let mut text = Text::new();
    for run in lent[..MAX_TABLE.min(lent.len())].chunk_by(|a, b| a == b) {
        put_run(&mut text, run[0], run.len());
    }
    text.put(b"\n");
    text
}
