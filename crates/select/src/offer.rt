// What one version of a job offers at the entries of a row: its word over the scores of the jobs before, by the rule. Entry m is
// for the close m minutes after the opening. The jobs before have a choice from the entry `from` on and none before it, so that no
// score needs to be looked at to tell.
ghost use Rattle.std.specs.Prelude.{◌≡◌, cond, is_some, ◌≤◌, ◌<◌, length};
ghost use Rattle.jobs.specs.Model.{minutes_of};
ghost use Rattle.select.specs.Word.{word_of, max_word, AllLow, AllLimited};
ghost use Rattle.select.specs.Row.{row_length, shifted, first_offer, Offerable, due_entry, due_offer, Taken};

use crate::word::{greater, word};
use jobs::model::{Job, Version};

// A version of word w at the entries from `first` up to `end`, not counted, where it starts `minutes` before each.
fn shift(first: usize, end: usize, minutes: usize, w: u32, scores: &[u32], words: &mut [u32])
    requires in_range { (first < end → minutes ≤ first) × (end ≤ length scores.now) × (end ≤ length words.old) × (w ≤ max_word) }
    requires low { AllLow scores.now × AllLimited words.old }
    ensures { Taken (shifted scores.now minutes w) first end words.old words.new }
{
    if end <= first {
        return;
    }
    // By number: after a `zip` with `iter_mut` a proof knows none of the words, and that loop took 1.4 times as long.
    let before = &scores[first - minutes..end - minutes];
    for (m, word) in words[first..end].iter_mut().enumerate() {
        *word = greater(*word, before[m] + w);
    }
}

// The entry of the due minute, or the row's end: from there on a version that is read offers one word for all.
pub(crate) fn due_entry(j: Job, opening: u16, width: usize) -> usize
    ensures { result ≡ due_entry j opening width }
{
    usize::from(j.due.saturating_sub(opening)).min(width)
}

// The first entry where version v of job j is offered; the row's end where it comes too late for all of them: a place to begin at in either
// case, and so no `Option`.
#[tactic(auto, unfolding(crate::specs::Row::first_offer))]
pub(crate) fn first_offer(j: Job, v: Version, opening: u16, from: usize, width: usize) -> usize
    requires { (opening ≤ j.ready) × (from ≤ row_length) }
    ensures { result ≡ first_offer j v opening from width }
{
    let Some(minutes) = v.minutes else {
        return from;
    };
    let ready = usize::from(j.ready - opening);
    let start = ready.max(from);
    let first = start + usize::from(minutes);
    if usize::from(opening) + first <= usize::from(j.due) {
        first
    } else {
        width
    }
}

// Version k, from its first entry up to that of the due minute; where it is set aside, up to the row's end.
pub(crate) fn offer(v: Version, k: u8, first: usize, due: usize, scores: &[u32], words: &mut [u32])
    requires version { Offerable v k first (length scores.now) }
    requires sizes { (length words.old ≡ length scores.now) × (due ≤ length scores.now) }
    requires low { AllLow scores.now × AllLimited words.old }
    ensures { Taken (shifted scores.now (minutes_of v) (word_of v.worth k))
        first (cond (is_some v.minutes) due (length scores.now)) words.old words.new }
{
    let w = word(v.worth, k);
    match v.minutes {
        Some(minutes) => shift(first, due, usize::from(minutes), w, scores, words),
        None => shift(first, words.len(), 0, w, scores, words),
    }
}

// What version k offers from the due minute on; 0, the word of no choice, where it is set aside or comes too late, or the row ends before.
// No `Option`: 32 bits hold a word and its absence, and one comparison orders both.
#[tactic(auto, unfolding(crate::specs::Row::due_offer))]
pub(crate) fn due_offer(v: Version, k: u8, first: usize, due: usize, scores: &[u32]) -> u32
    requires version { Offerable v k first (length scores.now) }
    requires low { AllLow scores.now }
    ensures { result ≡ due_offer v k first due scores.now }
{
    match v.minutes {
        Some(minutes) if first <= due && due < scores.len() => {
            scores[due - usize::from(minutes)] + word(v.worth, k)
        }
        _ => 0,
    }
}
