// The lent list and the words beside it, as a file starts.
ghost use Rattle.std.specs.Prelude.{◌≡◌, List, ◌<◌, length, get_or, replicate};
ghost use Rattle.format.specs.Header.{Laid, head_at};
ghost use Rattle.format.specs.Contents.{contents_at};
ghost use Rattle.reading.specs.Reading.{with_head};
ghost use Rattle.steps.specs.Threads.{no_thread};
ghost use Rattle.choices.specs.Choices.{start};
ghost use Rattle.lending.specs.Starting.{starting, beside_started};

use super::unlendable;
use checking::enter_scoped;
use choices::list::start_beside;
use format::words::narrow;
use format::{Head, Verdict};
use steps::Thread;
use steps::beside::BESIDE;

// The file's head, and beside a list of so many records the counts and totals of the start; or the first of 1 to 10, and then 18 at place 0 for wrong sizes, with
// nothing changed.
fn begin_with(
    file: &[u8],
    records: usize,
    table: &mut [u64],
    beside: &mut [u16],
) -> Result<Head, Verdict>
    requires { (length table.old ≡ 1025) × (table.old ≡ replicate (length table.old) 0) }
    ensures { (result ≡ with_head (head_at file.now) (starting file.now records (length beside.old)))
        × ((l : List Thread) → length l ≡ records → beside.new ≡ beside_started file.now l beside.old) }
{
    let head = enter_scoped(file, table)?;
    let fits = (records == 64) & (beside.len() == BESIDE);
    if !fits {
        return Err(unlendable());
    }
    start_beside(file, head, table, beside);
    Ok(head)
}

pub fn begin(file: &[u8], records: usize, beside: &mut [u16]) -> Result<Head, Verdict>
    ensures { (result ≡ with_head (head_at file.now) (starting file.now records (length beside.old)))
        × ((l : List Thread) → length l ≡ records → beside.new ≡ beside_started file.now l beside.old) }
{
    let mut table = [0u64; 1025];
    begin_with(file, records, &mut table, beside)
}

// The thread of a session as it starts, the first session's for 0: at its root, with the session's mask and nothing bound.
pub fn opening(file: &[u8], head: Head, k: usize) -> Thread
    requires { Laid file.now head × (k < head.count.sessions) }
    ensures { result ≡ get_or (start (contents_at file.now head)).threads k no_thread }
{
    choices::list::opening(file, head, narrow(k + 1))
}
