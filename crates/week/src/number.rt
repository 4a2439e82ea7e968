// Batches by their numbers.
ghost use Rattle.std.specs.Prelude.{◌≡◌};
ghost use Rattle.week.specs.Numbers.{is_held};

use crate::record::Batch;

// Whether one of some batches has a number.
pub fn is_held(batches: &[Batch], number: u16) -> bool
    ensures { result ≡ is_held number batches.now }
{
    batches.iter().any(|batch| batch.number == number)
}
