// A list as it is written down: docs/WEEKDESK.md, ‘What is written down’.
ghost use Rattle.std.specs.Prelude.{◌≡◌};
ghost use Rattle.draft.specs.Record.{with_batch, week_of, of_week};

use week::record::{Batch, Listing, Week};

// How many batches are kept.
pub const MAX_KEPT: usize = 64;

// The batches are counted up to one more than are kept, so that more is told from it.
pub type Draft = Listing<MAX_KEPT>;

// `batch ..`: ‘one batch more, as handed in’.
#[tactic(auto, unfolding(crate::specs::Record::with_batch))]
pub fn with_batch(mut draft: Draft, batch: Batch) -> Draft
    ensures { result ≡ with_batch draft batch }
{
    let at = draft.count;
    if at < MAX_KEPT {
        draft.batches[at] = batch;
    }
    if at <= MAX_KEPT {
        draft.count = at + 1;
    }
    draft
}

// ‘an operation over a list by value is handed the first 16 of them and the count’ No `From`, here and below: neither type is of this crate.
pub fn week_of(draft: Draft) -> Week
    ensures { result ≡ week_of draft }
{
    draft.with_places()
}

// A list by value as a list that is written down: of a count above 16 the batches that it has not got are empty.
pub fn of_week(week: Week) -> Draft
    ensures { result ≡ of_week week }
{
    week.with_places()
}
