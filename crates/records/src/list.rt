// The list that lent records are, and records put in order.
ghost use Rattle.std.specs.Prelude.{◌≡◌, length};
ghost use Rattle.week.specs.Order.{ordered};
ghost use Rattle.week.specs.Written.{batches_of};
ghost use Rattle.records.specs.Records.{lent_week};

use week::order::in_order;
use week::record::{Batch, Week};

// As many batches as there are records, which 3 is about; the first sixteen have a place.
pub(crate) fn lent_week(opening: u16, closing: u16, records: &[Batch]) -> Week
    ensures { result ≡ lent_week opening closing records.now }
{
    let kept = Week::places(records.len());
    let mut batches = [Batch::empty(); Week::MAX_BATCHES];
    batches[..kept].copy_from_slice(&records[..kept]);
    Week {
        opening,
        closing,
        count: records.len(),
        batches,
    }
}

// The batches of a list, put in order in the records that they were lent as: document 01's "One thin function puts a lent slice of batch
// records in order .. over a covered ordering of an array by value." Nothing here is by hand: a lent slice of records is covered too.
pub(crate) fn put_in_order(week: Week, records: &mut [Batch])
    requires { (records.old ≡ batches_of week) × (length records.old ≡ week.count) }
    ensures { records.new ≡ ordered week.opening records.old }
{
    records.copy_from_slice(in_order(week).listed());
}
