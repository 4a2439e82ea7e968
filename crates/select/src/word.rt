// Packed words: the score of a choice and its last version in one number, so that one comparison tells the better of two choices.
// A score is one more than the choice's total, and 0 where no choice meets the rule: no choice is not a total of 0. The word of a
// choice is its score times 16 plus 16 less the version; that of no choice is 0. So the greater of two words has the greater score
// and, of equal scores, the lower version. A score alone is a word without a version: a multiple of 16.
ghost use Rattle.std.specs.Prelude.{◌≡◌, ◌≤◌, ◌<◌, max};
ghost use Rattle.jobs.specs.Model.{max_versions};
ghost use Rattle.select.specs.Word.{max_worth, word_limit, word_of, score_part, version_part};

// A job has fewer versions than this, so that this less a version is above 0.
const RADIX: u32 = 16;

// The score of no jobs: they have one choice, and its total is 0.
pub(crate) const NO_JOBS: u32 = RADIX;

// What a version adds to a score of the jobs before it.
pub(crate) fn word(worth: u32, k: u8) -> u32
    requires { (worth ≤ max_worth) × (1 ≤ k) × (k ≤ max_versions) }
    ensures { result ≡ word_of worth k }
{
    worth * RADIX + (RADIX - u32::from(k))
}

// Compared as signed numbers, which the machine has an instruction for that compares four at once: by `max` a table of 2,400 minutes
// took 1.2 times as long to fill, and one of 300 minutes 1.1 times.
pub(crate) fn greater(a: u32, b: u32) -> u32
    requires { (a < word_limit) × (b < word_limit) }
    ensures { result ≡ max a b }
{
    if (a as i32) < (b as i32) { b } else { a }
}

// The score of a word, without its version.
pub(crate) fn score_part(x: u32) -> u32
    ensures { result ≡ score_part x }
{
    x - x % RADIX
}

// The version of a word; 0 where it has none. A remainder by 16, which 8 bits hold: `try_from` would test what is proved.
pub(crate) fn version_part(x: u32) -> u8
    ensures { result ≡ version_part x }
{
    ((RADIX - x % RADIX) % RADIX) as u8
}
