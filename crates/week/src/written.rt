// Lists freshly written from the batches of another: all of them, one more, one less; empty batches stand beyond them.
ghost use Rattle.std.specs.Prelude.{◌<◌, ◌≡◌, [], ◌∷◌, ◌++◌};
ghost use Rattle.week.specs.Record.{max_batches};
ghost use Rattle.week.specs.Order.{ordered};
ghost use Rattle.week.specs.Numbers.{without};
ghost use Rattle.week.specs.Written.{batches_of, written};

use crate::order::in_order;
use crate::record::{Batch, Week};

// The same batches.
pub fn fresh(week: Week) -> Week
    ensures { result ≡ written week.opening week.closing (batches_of week) }
{
    let listed = week.listed();
    let n = listed.len();
    let mut batches = [Batch::empty(); Week::MAX_BATCHES];
    batches[..n].copy_from_slice(listed);
    Week {
        count: n,
        batches,
        ..week
    }
}

// One more, and all of them in order.
pub fn with_batch(week: Week, batch: Batch) -> Week
    requires { week.count < max_batches }
    ensures { result ≡ written week.opening week.closing (ordered week.opening (batches_of week ++ (batch ∷ []))) }
{
    let n = week.count;
    let mut batches = week.batches;
    batches[n] = batch;
    in_order(Week {
        count: n + 1,
        batches,
        ..week
    })
}

// Without the batches of a number.
pub fn leave_out(week: Week, number: u16) -> Week
    ensures { result ≡ written week.opening week.closing (without number (batches_of week)) }
{
    let stays = |batch: &&Batch| batch.number != number;
    let mut batches = [Batch::empty(); Week::MAX_BATCHES];
    // Stored by number: after a `zip` with what is written a proof knows none of its entries, and no memory is had to collect into.
    for (place, batch) in week.listed().iter().filter(stays).enumerate() {
        batches[place] = *batch;
    }
    Week {
        count: week.listed().iter().filter(stays).count(),
        batches,
        ..week
    }
}
