// The lent list of threads, record by record: each judged by value, and what a choice changes stored in place.
ghost use Rattle.std.specs.Prelude.{◌≡◌, ◌≤◌, ◌<◌, length};
ghost use Rattle.format.specs.Header.{Laid};
ghost use Rattle.format.specs.Contents.{contents_at};
ghost use Rattle.steps.specs.Acted.{outcome_of};
ghost use Rattle.steps.specs.Beside.{thread_count};
ghost use Rattle.lending.specs.Scopes.{Scoped};
ghost use Rattle.lending.specs.Walk.{Fitting, threads_fit, Storable, stored_in};
ghost use Rattle.lending.specs.Storing.{put_at, closed};

use format::Head;
use lending::judging::{no_tally, tally, tally_fits};
use lending::storing::{down_to, first_of, first_to, second_of, second_to};
use steps::{Acted, Thread};

// Every counted record, the first n, is as its node asks, and the totals beside them are theirs. The list stays as it is.
pub fn records_fit(
    list: &mut [Thread],
    n: usize,
    file: &[u8],
    head: Head,
    table: &[u64],
    beside: &[u16],
) -> bool
    requires { Laid file.now head × (length table.now ≡ 1025) × Scoped (contents_at file.now head) table.now × Fitting (length list.old) beside.now
        × (n ≡ thread_count beside.now) }
    ensures { (result ≡ threads_fit (contents_at file.now head) list.old beside.now) × (list.new ≡ list.old) }
{
    let mut all = no_tally();
    for k in 0..n {
        all = tally(file, head, table, beside, all, list[k]);
    }
    tally_fits(beside, all)
}

// Thread k's record is replaced; for 0 none is.
pub fn put_record(list: &mut [Thread], k: usize, t: Thread)
    requires { k ≤ length list.old }
    ensures { list.new ≡ put_at list.old k t }
{
    if 0 < k {
        list[k - 1] = t;
    }
}

// The records of the threads after thread i, up to thread n, move down by one.
pub fn close_gap(list: &mut [Thread], i: usize, n: usize)
    requires { (i ≤ n) × (i < n → (0 < i) × (n ≤ length list.old)) }
    ensures { list.new ≡ closed list.old i n }
{
    if i < n {
        list.copy_within(i..n, i - 1);
    }
}

// What the step of thread i with partner p, of so many, comes to is stored; records are shifted only for an end.
pub fn store(list: &mut [Thread], count: usize, i: usize, p: usize, it: Acted)
    requires { Storable (length list.old) count i p it.answer }
    ensures { list.new ≡ stored_in list.old count i p (outcome_of it) }
{
    put_record(list, first_to(i, it), first_of(it));
    put_record(list, second_to(count, p, it), second_of(it));
    close_gap(list, i, down_to(count, i, it));
}
