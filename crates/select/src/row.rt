// One row of the programme: the picks of a job and the scores with it, from the scores of the jobs before.
ghost use Rattle.std.specs.Prelude.{◌≡◌, map, ◌≤◌, ◌<◌, length};
ghost use Rattle.jobs.specs.Model.{max_versions};
ghost use Rattle.select.specs.Word.{score_part, version_part, word_limit, AllLow, AllLimited, Packable};
ghost use Rattle.select.specs.Row.{row_length, Starts, Taken, FilledRow};

use crate::offer::{due_entry, due_offer, first_offer, offer};
use crate::word::{greater, score_part, version_part};
use jobs::model::Job;

// The words from `first` on, raised to the level where they are below it.
fn raise(first: usize, level: u32, words: &mut [u32])
    requires { (first ≤ length words.old) × (level < word_limit) × AllLimited words.old }
    ensures { Taken (λ m. level) first (length words.old) words.old words.new }
{
    for word in &mut words[first..] {
        *word = greater(*word, level);
    }
}

// Each word taken apart, into its score and its version.
fn settle(words: &[u32], scores: &mut [u32], picks: &mut [u8])
    requires { (length scores.old ≡ length words.now) × (length picks.old ≡ length words.now) }
    ensures scores_after { scores.new ≡ map score_part words.now }
    ensures picks_after { picks.new ≡ map version_part words.now }
{
    // By number: after a `zip` with what is written a proof knows none of its entries.
    for (m, word) in words.iter().enumerate() {
        scores[m] = score_part(*word);
        picks[m] = version_part(*word);
    }
}

// The row of job j. The scores are those of the jobs before, which have a choice from the entry `from` on, and then those with job
// j, which have one from the entry answered on; the words are scratch space. The rows are no struct: the bound of the scores, which a
// struct would keep, grows with each job.
pub(crate) fn fill_row(
    j: Job,
    opening: u16,
    from: usize,
    scores: &mut [u32],
    words: &mut [u32],
    picks: &mut [u8],
) -> usize
    requires job { (j.count ≤ max_versions) × (opening ≤ j.ready) × Packable j }
    requires sizes { (length words.old ≡ length scores.old) × (length picks.old ≡ length scores.old) }
    requires scored { (length scores.old ≤ row_length) × Starts from scores.old × AllLow scores.old }
    ensures { FilledRow j opening (length scores.old)
        scores.old result scores.new picks.new }
{
    words.fill(0);
    let width = scores.len();
    let due = due_entry(j, opening, width);
    let mut level: u32 = 0;
    let mut next = width;
    for (i, v) in j.versions[..j.count].iter().enumerate() {
        // A job has at most 10 versions: `try_from` would test what is proved.
        let k = (i + 1) as u8;
        let first = first_offer(j, *v, opening, from, width);
        offer(*v, k, first, due, scores, words);
        level = level.max(due_offer(*v, k, first, due, scores));
        next = next.min(first);
    }
    raise(due, level, words);
    settle(words, scores, picks);
    next
}
