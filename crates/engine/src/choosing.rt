// One choice in the lent list of threads.
ghost use Rattle.std.specs.Prelude.{◌≡◌, length};
ghost use Rattle.format.specs.Header.{Laid};
ghost use Rattle.format.specs.Contents.{contents_at};
ghost use Rattle.lending.specs.Scopes.{Scoped};
ghost use Rattle.lending.specs.Walk.{Fitting, judged_answer, judged_records, judged_beside};

use super::walk::{records_fit, store};
use format::{Head, Verdict};
use lending::stepping::stepped;
use lending::{answer_of, index_of, unlendable};
use steps::Thread;
use steps::beside::thread_count;

// One choice in a list of which sizes and made channels are right.
pub fn choose_by(
    list: &mut [Thread],
    file: &[u8],
    head: Head,
    table: &[u64],
    beside: &mut [u16],
    i: u16,
    p: u16,
) -> Verdict
    requires { Laid file.now head × (length table.now ≡ 1025) × Scoped (contents_at file.now head) table.now × Fitting (length list.old) beside.old }
    ensures { (result ≡ judged_answer (contents_at file.now head) list.old beside.old i p)
        × (list.new ≡ judged_records (contents_at file.now head) list.old beside.old i p)
        × (beside.new ≡ judged_beside (contents_at file.now head) list.old beside.old i p) }
{
    let count = thread_count(beside);
    let n = usize::from(count);
    if !records_fit(list, n, file, head, table, beside) {
        return unlendable();
    }
    let own = list[index_of(count, i)];
    let other = list[index_of(count, p)];
    let it = stepped(file, head, table, beside, i, own, p, other);
    store(list, n, usize::from(i), usize::from(p), it);
    answer_of(it)
}
