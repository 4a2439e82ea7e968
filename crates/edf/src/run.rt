// The run: the log of what the station reads, minute by minute.
ghost use Rattle.std.specs.Prelude.{◌≡◌, length, position};
ghost use Rattle.edf.specs.Workload.{is_pending, work_log};
ghost use Rattle.edf.specs.Contract.{Runnable};

use crate::workload::{Task, Workload};

// The index of the first task that is ready in this minute and has minutes left.
fn first_pending(tasks: &[Task], minute: u16) -> Option<usize>
    ensures { result ≡ position (is_pending minute) tasks.now }
{
    tasks.iter().position(|task| task.is_pending(minute))
}

// One entry of the log for each minute from the opening on, to the log's end: a caller lends the part that is to be written.
pub fn run(work: Workload, opening: u16, log: &mut [u8])
    requires { Runnable work opening (length log.old) }
    ensures { log.new ≡ work_log work opening (length log.old) }
{
    // Each with the minutes that it has left.
    let mut tasks = work.tasks;
    for (m, entry) in log.iter_mut().enumerate() {
        // The log ends at a minute that 16 bits hold, and a position is at most 16: `try_from` would test what is proved.
        let minute = opening + (m as u16);
        *entry = match first_pending(&tasks[..work.count], minute) {
            Some(i) => {
                tasks[i].minutes -= 1;
                (i + 1) as u8
            }
            None => 0,
        };
    }
}
